//! What holds of every history of a queue. Each law is the contract of a function that does nothing.
ghost use Rattle.std.specs.Prelude.{◌≡◌, ◌≤◌, ◌++◌, [], ℕ, length};
ghost use Rattle.turn_cell.specs.declared.view.View.{View};
ghost use Rattle.ready_queue.specs.declared.rule.Move.{Move};
ghost use Rattle.ready_queue.specs.History.{QueueLog, held_after, IsQueueHistory, put_in, taken_in};
ghost use Rattle.ready_queue.specs.Calls.{HasAllSeats, WasFull, WasEmpty};

use crate::rule::Move;
use turn_cell::all_seats_see_all;

/// What was taken, in order, and then what is held, in order, is what was put, in order. So an event is taken
/// at most as often as it was put, and the one that was put first is taken first.
pub fn histories_are_first_in_first_out()
    ensures { (capacity : ℕ) (log : QueueLog) → IsQueueHistory capacity log
        → taken_in log ++ held_after log ≡ put_in log }
{}

/// No more events are held than the capacity.
pub fn histories_hold_at_most_the_capacity()
    ensures { (capacity : ℕ) (log : QueueLog) → IsQueueHistory capacity log
        → length (held_after log) ≤ capacity }
{}

/// What a pass has seen of a history is a history.
pub fn histories_begin_with_histories()
    ensures { (capacity : ℕ) (seen more : QueueLog) → IsQueueHistory capacity (seen ++ more)
        → IsQueueHistory capacity seen }
{}

/// To a pass that has all seats each answer is exact: what it has seen is the whole history, and a
/// full queue holds as many events as its capacity, an empty one none. Of a pass that lacks a seat
/// nothing follows from either answer.
pub fn answers_to_all_seats_are_exact()
    ensures full { (capacity : ℕ) (v w : View Move) → HasAllSeats v → WasFull capacity v w
        → length (held_after v.seen) ≡ capacity }
    ensures empty { (capacity : ℕ) (v w : View Move) → HasAllSeats v → WasEmpty capacity v w
        → held_after v.seen ≡ [] }
{
    all_seats_see_all::<Move>();
}
