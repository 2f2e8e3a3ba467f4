//! What holds of the run of every seed, and of the totals of many.
ghost use Rattle.std.specs.Prelude.{◌≡◌, ◌⊎◌, ℕ, ◌+◌, ◌-◌, ◌*◌, ◌^◌, ◌<◌, ◌≤◌, ◌∷◌, [], length, Err, IsOk};
ghost use Rattle.ccid_two.specs.Kinds.{kinds_control};
ghost use Rattle.two_ends.specs.Controlled.{happens_to, plays};
ghost use Rattle.two_ends.specs.Delivered.{IsDeliveredOnce};
ghost use Rattle.two_ends.specs.Safe.{Safe};
ghost use Rattle.feature_lists.specs.declared.features.Feature.TheVariants.{MinCsCov};
ghost use Rattle.feature_lists.specs.declared.features.Place.TheVariants.{Here, There};
ghost use Rattle.two_ends.specs.World.{half_of};
ghost use Rattle.world_events.specs.declared.event.Event.TheVariants.{Open, Prefer, Send};
ghost use Rattle.world_events.specs.declared.event.Side.TheVariants.{Client, Server};
ghost use Rattle.fault_campaign.specs.Draws.{after_two, after_one, drawn, generator, word};
ghost use Rattle.rand_pcg.specs.Lcg.{Lcg};
ghost use Rattle.fault_campaign.specs.Reports.{plus, size};
ghost use Rattle.fault_campaign.specs.Seeded.{begun_run, next_event, seeded, seeded_events, seeded_report};
ghost use Rattle.fault_campaign.specs.Totals.{totals};

use ccid_two::Kinds;
use two_ends::{WorldFault, data_are_delivered_once, every_run_is_safe, few_frames_are_never_far};

/// A run counts at most five for each event, and nineteen more: the seed, and the features that are settled (own). So
/// the reports of a campaign can be added.
pub fn reports_count_little()
    ensures { (seed events : ℕ) → 1 ≤ events → size (seeded_report seed events) ≤ 5 * events + 19 }
{}

/// Each event that a seed draws can happen (own): a frame that is delivered was sent, no side has sent all frames that
/// it may, and as long as there were fewer than 2^23 events, no frame is far where it arrives. So the run of a seed can
/// fail only for lack of memory.
pub fn drawn_events_happen()
    ensures first { (seed : ℕ) → IsOk (happens_to kinds_control (begun_run (generator seed)).world Open) }
    ensures next { (seed events : ℕ) → events < 2 ^ 23
        → IsOk (happens_to kinds_control (seeded seed events).world (next_event (seeded seed events))) }
    ensures or_far { (seed events : ℕ) → events < 2 ^ 47 - 1
        → (happens_to kinds_control (seeded seed events).world (next_event (seeded seed events)) ≡ Err WorldFault.FarShort)
        ⊎ IsOk (happens_to kinds_control (seeded seed events).world (next_event (seeded seed events))) }
{
    few_frames_are_never_far::<Kinds>();
}

/// The run of a seed is that of a schedule (own), with as many events as were asked for; the two ends are safe after
/// any number of them, and deliver no frame's data twice.
pub fn seeded_runs_are_safe()
    ensures schedule { (seed events : ℕ)
        → (seeded seed events).world ≡ plays kinds_control (begun_run (generator seed)).world (seeded_events seed events) }
    ensures many { (seed events : ℕ) → 1 ≤ events → length (seeded_events seed events) ≡ events }
    ensures safe { (seed events : ℕ) → Safe kinds_control (seeded seed events).world }
    ensures once { (seed events : ℕ) → IsDeliveredOnce kinds_control (begun_run (generator seed)).world (seeded_events seed events) }
{
    every_run_is_safe::<Kinds>();
    data_are_delivered_once::<Kinds>();
}

/// The totals of seeds, and those of the seeds after them, are the totals of all of them, count by count (own). So a
/// campaign may be run in parts, on as many machines as there are.
pub fn parts_of_a_campaign_add_up()
    ensures { (first some more events : ℕ)
        → plus (totals first some events) (totals (first + some) more events) ≡ totals first (some + more) events }
{}

/// The draws on which no count of a report depends (own), by values that were computed independently. The first words
/// of seed 1 are 33a70be6, 7dbcf3ee, cadf4751 and 11ac71c0. The last 16 bits of the first, followed by the 32 of the
/// second, are the initial number of the client; the third and the fourth give the server's. 0000ffff and ffffffff give
/// the greatest number. Data are the four bytes of a word, the highest first, and the lists for feature 8 come in this
/// order.
#[tactic(auto, unfolding(crate::specs::Draws::drawn, crate::specs::Seeded::begun_run))]
pub fn draws_that_no_count_shows()
    ensures client { (g : Lcg) → word g ≡ 866585574 → word (after_one g) ≡ 2109535214
        → (half_of (begun_run g).world.world Client).end.marks.iss ≡ 13084579918830 }
    ensures server { (g : Lcg) → word (after_two g) ≡ 3403630417 → word (after_one (after_two g)) ≡ 296513984
        → (half_of (begun_run g).world.world Server).end.marks.iss ≡ 78413514437056 }
    ensures greatest { (g : Lcg) → word g ≡ 65535 → word (after_one g) ≡ 4294967295
        → (half_of (begun_run g).world.world Client).end.marks.iss ≡ 281474976710655 }
    ensures data { (clients servers : ℕ) → drawn 24 441867712 clients servers ≡ Send Client (26 ∷ 86 ∷ 93 ∷ 192 ∷ []) }
    ensures data_of_the_server { (clients servers : ℕ) → drawn 25 1 clients servers ≡ Send Server (0 ∷ 0 ∷ 0 ∷ 1 ∷ []) }
    ensures three { (clients servers : ℕ) → drawn 26 3 clients servers ≡ Prefer Client MinCsCov Here (1 ∷ 2 ∷ 3 ∷ []) }
    ensures two { (clients servers : ℕ) → drawn 59 12 clients servers ≡ Prefer Server MinCsCov There (3 ∷ 1 ∷ []) }
    ensures one { (clients servers : ℕ) → drawn 26 21 clients servers ≡ Prefer Client MinCsCov There (2 ∷ []) }
{}
