//! Numbers that are claimed once, in turn and by two threads.
ghost use Rattle.std.specs.Prelude.{◌≡◌, ◌<◌};

use campaign_claims::{Claimer, Claims, make_claims};
use std::alloc::Global;
use std::test::Fail;
use std::thread::{Threads, join};

fn claim_one(claims: &Claims, mut claimer: Claimer) -> (Claimer, Option<u64>)
    requires same { claimer.claims ≡ claims.now }
    requires part { claimer.view.drawn < claimer.view.share }
    ensures same { result.0.claims ≡ claims.now }
{
    let number = claimer.claim(claims);
    (claimer, number)
}

fn claim_both<R: Threads + Sync>(
    rt: &R,
    claims: &Claims,
    one: Claimer,
    other: Claimer,
) -> (Claimer, bool)
    requires one { one.claims ≡ claims.now }
    requires other { other.claims ≡ claims.now }
    requires part { one.view.drawn < one.view.share }
    requires other_part { other.view.drawn < other.view.share }
    ensures same { result.0.claims ≡ claims.now }
{
    let ((mut mine, first), (theirs, second)) = join(
        rt,
        move || -> (Claimer, Option<u64>)
            requires same { one.claims ≡ claims.now }
            requires part { one.view.drawn < one.view.share }
            ensures same { result.0.claims ≡ claims.entry.now }
        { claim_one(claims, one) },
        move || -> (Claimer, Option<u64>)
            requires same { other.claims ≡ claims.now }
            requires part { other.view.drawn < other.view.share }
            ensures same { result.0.claims ≡ claims.entry.now }
        { claim_one(claims, other) },
    );
    mine.join(claims, theirs);
    (mine, first != second)
}

// What four claims of two numbers return, from two claimers in turn, and the word after they are joined.
fn claimed_in_turn(alloc: Global) -> Result<([Option<u64>; 4], u64), Fail> {
    let (claims, mut claimer) = make_claims(alloc, 2)?;
    let mut other = claimer.split(&claims)?;
    let first = claimer.claim(&claims);
    let second = other.claim(&claims);
    let third = other.claim(&claims);
    let fourth = claimer.claim(&claims);
    claimer.join(&claims, other);
    Ok(([first, second, third, fourth], claims.close(claimer)))
}

#[test]
fn claims_in_turn(rt: HostRuntime) -> Result<(), Fail> {
    let (claimed, word) = claimed_in_turn(rt.alloc())?;
    assert!(rt; claimed == [Some(0), Some(1), None, None], "{claimed:?}");
    assert!(rt; word == 4, "the word {word}");
    Ok(())
}

// Whether each of two threads has its own number, and the word after they are joined.
fn claimed_by_two<R: Threads + Sync>(rt: &R, alloc: Global) -> Result<(bool, u64), Fail> {
    let (claims, mut claimer) = make_claims(alloc, 2)?;
    let other = claimer.split(&claims)?;
    let (last, apart) = claim_both(rt, &claims, claimer, other);
    Ok((apart, claims.close(last)))
}

#[test]
fn claims_by_two_threads(rt: HostRuntime) -> Result<(), Fail> {
    assert!(rt; claimed_by_two(&rt, rt.alloc())? == (true, 2));
    Ok(())
}
