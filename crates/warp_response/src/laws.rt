//! What holds of the definitions, whatever is written. Each law is the contract of a
//! function that does nothing.
ghost use Rattle.std.specs.Prelude.{◌≡◌, ◌<◌, [], ◌∷◌, ℕ};
ghost use Rattle.httpdate.specs.Valid.{IsValid, parts_secs};
ghost use Rattle.warp_response.specs.Moment.{civil_of, first_undated};
ghost use Rattle.warp_response.specs.Statuses.{statuses};

use crate::status::{
    BAD_REQUEST, CONTENT_TOO_LARGE, EXPECTATION_FAILED, HEADER_FIELDS_TOO_LARGE,
    METHOD_NOT_ALLOWED, MOVED_PERMANENTLY, NOT_FOUND, NOT_IMPLEMENTED, OK, URI_TOO_LONG,
};

/// The constants of the module `status` are, in order, the statuses that have a phrase.
pub fn each_status_has_its_number()
    ensures { OK ∷ MOVED_PERMANENTLY ∷ BAD_REQUEST ∷ NOT_FOUND ∷ METHOD_NOT_ALLOWED ∷ CONTENT_TOO_LARGE
        ∷ URI_TOO_LONG ∷ EXPECTATION_FAILED ∷ HEADER_FIELDS_TOO_LARGE ∷ NOT_IMPLEMENTED ∷ [] ≡ statuses }
{}

/// The date that is counted off is one of the calendar, and the seconds from 1970 to it are the moment.
#[tactic(auto, using(crate::proofs::MomentLemmas::civil_is))]
pub fn a_date_is_of_its_moment()
    ensures valid { (moment : ℕ) → moment < first_undated → IsValid (civil_of moment) }
    ensures counts { (moment : ℕ) → moment < first_undated → parts_secs (civil_of moment) ≡ moment }
{}
