//! What holds of the load as it is defined, whatever serves it. Each law is the contract of a function that
//! does nothing.
ghost use Rattle.std.specs.Prelude.{◌≡◌, ◌≤◌, [], ℕ, IsTrue, length, sum_by};
ghost use Rattle.conn_loop.specs.Answers.{answers_of, finals_of, rest_of};
ghost use Rattle.conn_loop.specs.Replying.{folder_replies};
ghost use Rattle.warp_load.specs.LoadFolder.{load_folder};
ghost use Rattle.warp_load.specs.LoadRanges.{HasRanges, is_load};
ghost use Rattle.warp_load.specs.LoadScripts.{load_plans, load_room};
ghost use Rattle.warp_load.specs.LoadTotals.{load_answers, load_moments, load_total};
ghost use Rattle.warp_load.specs.Requests.{load_input};

use warp_request::{a_settled_body_stays, a_settled_head_stays};

/// Each number of a load is in its range.
pub fn a_load_has_its_ranges()
    ensures { (seed connections requests : ℕ) → IsTrue (is_load seed connections requests)
        → HasRanges seed connections requests }
{}

/// A connection's input calls for as many final answers as it makes requests, and no byte of it is left
/// after them.
pub fn each_request_is_answered()
    ensures rest { (seed requests i : ℕ) → requests ≤ 1000 → rest_of (load_input seed requests i) ≡ [] }
    ensures finals { (seed requests i : ℕ) → requests ≤ 1000
        → finals_of (load_input seed requests i) ≡ requests }
{
    a_settled_head_stays();
    a_settled_body_stays();
}

/// The answers to a connection have just as many bytes as its script has room for.
pub fn answers_fill_the_room()
    ensures { (seed requests i : ℕ) → requests ≤ 1000
        → length (load_answers seed requests i) ≡ load_room seed requests i }
{
    a_settled_head_stays();
    a_settled_body_stays();
}

/// The sums over all connections are those over the plans of their links.
pub fn sums_are_over_the_plans()
    ensures requests { (seed connections requests : ℕ)
        → sum_by (λ plan. finals_of plan.1) (load_plans seed connections requests)
        ≡ (load_total seed connections requests).0 }
    ensures bytes { (seed connections requests : ℕ)
        → sum_by (λ plan. length (answers_of (folder_replies load_folder) plan.1 load_moments))
        (load_plans seed connections requests)
        ≡ (load_total seed connections requests).1 }
{}
