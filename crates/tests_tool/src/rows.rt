//! The worked rows are in `proofs/rows/`. Only the check with tests reads them, so that they are computed once.
