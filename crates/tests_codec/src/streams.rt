//! Streams, and what is read of them and written.
mod captures;
mod records;
mod schedules;
mod sources;
