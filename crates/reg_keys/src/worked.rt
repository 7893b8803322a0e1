//! Histories worked by hand are legal by the definitions: each entry has the one reply that it must
//! have. It is the test of the definitions themselves.
ghost use Rattle.std.specs.Prelude.{◌-◌, ◌^◌};
ghost use Rattle.reg_keys.specs.Histories.{past_of};
ghost use Rattle.reg_keys.specs.Replies.{IsLegal};
ghost use Rattle.reg_keys.specs.Worked.{a_late_event_is_stale, the_other_direction_is_named, an_event_runs_its_directions};
ghost use Rattle.reg_keys.specs.Worked.{an_event_runs_older_keys, a_forged_event_runs_nothing};
ghost use Rattle.reg_keys.specs.Worked.{a_forged_event_takes_none_out, an_old_mark_finds_the_report};
ghost use Rattle.reg_keys.specs.Worked.{the_mark_of_now_waits, a_flag_is_told_once, a_closed_flag_is_told_once};
ghost use Rattle.reg_keys.specs.Worked.{a_fired_flag_keeps_its_place, a_flag_is_given_back, a_job_is_given_back_once};
ghost use Rattle.reg_keys.specs.Worked.{refusals, nothing_is_left, the_last_number, the_last_descriptor};

/// Openings, events and directions.
pub fn worked_events_are_legal()
    ensures late_event { IsLegal 0 1 (past_of a_late_event_is_stale) }
    ensures other_direction { IsLegal 0 1 (past_of the_other_direction_is_named) }
    ensures own_directions { IsLegal 0 1 (past_of an_event_runs_its_directions) }
    ensures older_keys { IsLegal 0 1 (past_of an_event_runs_older_keys) }
    ensures forged_event { IsLegal 0 1 (past_of a_forged_event_runs_nothing) }
    ensures forged_number { IsLegal 0 1 (past_of a_forged_event_takes_none_out) }
{}

/// The last descriptor, of the last stripe.
pub fn worked_last_descriptor_is_legal()
    ensures { IsLegal 31 1 (past_of the_last_descriptor) }
{}

/// What a registration finds that names a mark.
pub fn worked_marks_are_legal()
    ensures old_mark { IsLegal 0 1 (past_of an_old_mark_finds_the_report) }
    ensures mark_of_now { IsLegal 0 1 (past_of the_mark_of_now_waits) }
{}

/// Flags and what is given back.
pub fn worked_answers_are_legal()
    ensures told_once { IsLegal 0 1 (past_of a_flag_is_told_once) }
    ensures closed_once { IsLegal 0 1 (past_of a_closed_flag_is_told_once) }
    ensures keeps_place { IsLegal 0 1 (past_of a_fired_flag_keeps_its_place) }
    ensures flag_back { IsLegal 0 1 (past_of a_flag_is_given_back) }
    ensures back_once { IsLegal 0 1 (past_of a_job_is_given_back_once) }
{}

/// Refusals, and the end of the numbers.
pub fn worked_refusals_are_legal()
    ensures refusals { IsLegal 0 1 (past_of refusals) }
    ensures nothing_left { IsLegal 0 (2 ^ 50 - 1) (past_of nothing_is_left) }
    ensures last_number { IsLegal 0 (2 ^ 50 - 2) (past_of the_last_number) }
{}
