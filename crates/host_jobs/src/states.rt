//! What may be done with a job in its state. `NoJob` where no cell holds the job, otherwise `State` with the job's state.
ghost use Rattle.std.specs.Prelude.{◌≡◌};
ghost use Rattle.host_jobs.specs.Answers.{send_answer, print_answer, close_answer};

use bench_base::refusals::HostRefusal;
use bench_base::words::JobState;

/// Why a job isn't sent to its device: it has to be ordered.
pub fn refuses_send(state: Option<JobState>) -> Option<HostRefusal>
    ensures exact { result ≡ send_answer state }
{
    match state {
        None => Some(HostRefusal::NoJob),
        Some(JobState::Ordered) => None,
        Some(other) => Some(HostRefusal::State(other)),
    }
}

/// Why a job isn't printed: it has to be held, and not begun yet.
pub fn refuses_print(state: Option<JobState>) -> Option<HostRefusal>
    ensures exact { result ≡ print_answer state }
{
    match state {
        None => Some(HostRefusal::NoJob),
        Some(JobState::Held) => None,
        Some(other) => Some(HostRefusal::State(other)),
    }
}

/// Why a job isn't closed: it is closed already.
pub fn refuses_close(state: Option<JobState>) -> Option<HostRefusal>
    ensures exact { result ≡ close_answer state }
{
    match state {
        None => Some(HostRefusal::NoJob),
        Some(JobState::Closed) => Some(HostRefusal::State(JobState::Closed)),
        Some(_) => None,
    }
}
