//! What a registration carries: a job, or nothing but the wish to be told.
ghost use Rattle.std.specs.Prelude.{◌≡◌, ℕ, List};

/// A job as contracts know it: by its tag alone. Two jobs of the same tag that wait at one time are one to
/// them, so whoever wants the very job back gives each a tag of its own. Jobs for tests have the empty tag.
///
/// A job should have a pointer's size: keep what is big behind a `Box`. A reply has room for four jobs,
/// whatever the call was, and is moved as it is through the cell and the manager; with jobs of half a KiB a
/// report, which sets two bits and a number, would move some ten KiB.
pub trait Load: Drop {
    ghost tag: { Self → List (List ℕ) };
}

/// What is registered: a job that is handed back when it is to run, or a flag that is asked for.
#[derive(Drop)]
pub enum Payload<T> {
    Job(T),
    Flag,
}

impl<T> Payload<T> {
    ghost use Rattle.stripe_table.specs.Loads.{is_flag, job_of};

    /// Whether this is a flag.
    pub fn is_flag(&self) -> bool
        ensures { result ≡ is_flag self.now }
    {
        match self {
            Payload::Job(_) => false,
            Payload::Flag => true,
        }
    }

    /// The job, or nothing for a flag.
    pub fn into_job(self) -> Option<T>
        ensures { result ≡ job_of self }
    {
        match self {
            Payload::Job(job) => Some(job),
            Payload::Flag => None,
        }
    }
}
