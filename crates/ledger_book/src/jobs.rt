//! The state of the host and of the verifier, over their commits.
ghost use Rattle.std.specs.Prelude.{◌≡◌, ◌||◌, [], ◌∷◌, reverse};
ghost use Rattle.bench_base.specs.Jobs.{job_of, held_of, begun};
ghost use Rattle.bench_base.specs.Scans.{accepted};
ghost use Rattle.ledger_terms.specs.Lawful.{held_piece};
ghost use Rattle.ledger_book.specs.Named.{named};

use bench_base::ledger::Commit;
use bench_base::numbers::DevNo;

fn named_in(commit: &Commit, job: u32) -> Option<(DevNo, u32)>
    ensures { result ≡ named (job_of job (commit.now ∷ [])) }
{
    match *commit {
        Commit::Ordered {
            job: j,
            device,
            piece,
            ..
        } if j == job => Some((device, piece)),
        _ => None,
    }
}

/// The device and the piece of the job.
pub(crate) fn named(commits: &[Commit], job: u32) -> Option<(DevNo, u32)>
    ensures { result ≡ named (job_of job (reverse commits.now)) }
{
    let mut found = None;
    for commit in commits {
        found = found.or(named_in(commit, job));
    }
    found
}

fn held_in(commit: &Commit, job: u32) -> Option<[u8; 64]>
    ensures { result ≡ held_of job (commit.now ∷ []) }
{
    match *commit {
        Commit::Held { job: j, mark } if j == job => Some(mark),
        _ => None,
    }
}

/// The mark in the first Held of the job.
pub(crate) fn held_of(commits: &[Commit], job: u32) -> Option<[u8; 64]>
    ensures { result ≡ held_of job (reverse commits.now) }
{
    let mut found = None;
    for commit in commits {
        found = found.or(held_in(commit, job));
    }
    found
}

fn begins(commit: &Commit, job: u32) -> bool
    ensures { result ≡ begun job (commit.now ∷ []) }
{
    match *commit {
        Commit::Began(j) => j == job,
        _ => false,
    }
}

/// Whether there is a Began of the job.
pub(crate) fn is_begun(commits: &[Commit], job: u32) -> bool
    ensures { result ≡ begun job (reverse commits.now) }
{
    let mut found = false;
    for commit in commits {
        found = begins(commit, job) || found;
    }
    found
}

// Whether this commit after those before it is a Held of the piece.
fn holds_piece(commit: &Commit, before: &[Commit], device: DevNo, piece: u32) -> bool
    ensures { held_piece device piece (commit.now ∷ reverse before.now) ≡
        (result || held_piece device piece (reverse before.now)) }
{
    match *commit {
        Commit::Held { job, .. } => match named(before, job) {
            Some((d, p)) => d == device && p == piece,
            None => false,
        },
        _ => false,
    }
}

/// Whether a Held names this device and piece, by its job.
pub(crate) fn held_piece(commits: &[Commit], device: DevNo, piece: u32) -> bool
    ensures { result ≡ held_piece device piece (reverse commits.now) }
{
    let mut found = false;
    for (i, commit) in commits.iter().enumerate() {
        found = holds_piece(commit, &commits[..i], device, piece) || found;
    }
    found
}

fn accepted_in(commit: &Commit, device: DevNo, piece: u32) -> Option<u32>
    ensures { result ≡ accepted device piece (commit.now ∷ []) }
{
    match *commit {
        Commit::Accepted {
            device: d,
            piece: p,
            scan,
        } if d == device && p == piece => Some(scan),
        _ => None,
    }
}

/// The scan under which the piece was first accepted.
pub(crate) fn accepted(commits: &[Commit], device: DevNo, piece: u32) -> Option<u32>
    ensures { result ≡ accepted device piece (reverse commits.now) }
{
    let mut found = None;
    for commit in commits {
        found = found.or(accepted_in(commit, device, piece));
    }
    found
}
