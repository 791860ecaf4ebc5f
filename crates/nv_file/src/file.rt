//! Storage in a file.
ghost use Rattle.std.specs.Prelude.{None, false, true, [], ℕ, ◌≡◌, ◌↔◌, ◌⊎◌, ◌+◌, ◌≤◌, length, Some, IfOk, IsTrue, is_ok};
ghost use Rattle.nv_model.specs.Meters.{Answers, unharmed};
ghost use Rattle.nv_file.specs.Ranges.{are_apart, joined, leaves_a_gap};

use crate::ahead::Ahead;
use crate::whole;
use nv_model::{Nv, NvFail};
use std::alloc::Global;
use std::fs::{File, Files};
use std::io;
use std::os::unix::fs::FileExt;

/// How many bytes are written again at once.
const PIECE: u32 = 4096;

/// A storage in a file can't start, for one of four reasons. A call on the file or its folder failed, lack of memory in it
/// included. The name is that of a link, or of something that is not a file. The file has a second name, or more than
/// 4,294,967,295 bytes. It belongs to a user or a group that a new file can't be given.
#[derive(Clone, Copy, Debug, PartialEq, Eq)]
pub struct StartFault;

/// Storage in a file. Each call that fails answers Fault and is counted; no power is ever lost, and there is no plan and no
/// fuse. It is not proved that the file holds what was written and keeps what was synced.
///
/// After a failed write or sync, a read may show bytes that the disk hasn't got, and the system takes them for
/// written. So the next sync or restart writes again what was written since the last sync that succeeded, and until one
/// has succeeded no write begins.
#[derive(Drop)]
pub struct FileNv {
    file: File,
    size: u32,
    faults: u64,
    /// The range that was written since the last sync that succeeded: its first place, and the place after it.
    range: Option<(u32, u32)>,
    /// Whether a write or a sync failed since then.
    failed: bool,
    /// What was read ahead since the last sync; a write and a restart end that.
    ahead: Ahead,
    ghost inside: { (r : ℕ × ℕ) → range ≡ Some r → r.1 ≤ size },
}

/// Whether places lie between two ranges.
fn are_apart(old: (u32, u32), new: (u32, u32)) -> bool
    ensures { result ≡ are_apart old new }
{
    old.1 < new.0 || new.1 < old.0
}

impl FileNv {
    ghost use Rattle.nv_file.specs.Aheads.{Fetched};
    ghost use Rattle.nv_file.specs.Files.{unsynced, nothing_unsynced};

    /// Uses the file at a path, whatever its length, or makes it with `size` zero bytes if there is no such file. What was
    /// there is written to a new file, which takes the name once it is on the disk. So what is read is on the disk too, and
    /// power may be cut meanwhile. The new file has the owner, the group and the mode of the old one.
    pub fn start<R: Files<File = File> + AllocGlobal>(
        rt: &R,
        path: &str,
        size: u32,
    ) -> Result<FileNv, StartFault>
        ensures unharmed { IfOk result (λ nv. ⟦<FileNv as Nv>⟧.meters nv ≡ unharmed) }
        ensures synced { IfOk result (λ nv. unsynced nv ≡ nothing_unsynced) }
    {
        let (store, _) = FileNv::prepare(rt, path, size)?;
        if whole::give_name(rt, path).is_err() {
            whole::discard(rt, path);
            return Err(StartFault);
        }
        match whole::sync_folder(rt, path) {
            Ok(()) => Ok(store),
            Err(_) => Err(StartFault),
        }
    }

    /// The storage of a path in its new file, on the disk, which has not taken the name yet, and whether no file had that name.
    pub(crate) fn prepare<R: Files<File = File> + AllocGlobal>(
        rt: &R,
        path: &str,
        size: u32,
    ) -> Result<(FileNv, bool), StartFault>
        ensures unharmed { IfOk result (λ made. ⟦<FileNv as Nv>⟧.meters made.0 ≡ unharmed) }
        ensures synced { IfOk result (λ made. unsynced made.0 ≡ nothing_unsynced) }
    {
        let part = whole::prepare(rt, path, size).map_err(|_| StartFault)?;
        let store = FileNv::over(rt.alloc(), part.file, part.size)?;
        Ok((store, part.is_first))
    }

    /// The storage of a path in the file that is there, as it is. All of it is on the disk.
    pub(crate) fn reuse<R: Files<File = File> + AllocGlobal>(
        rt: &R,
        path: &str,
    ) -> Result<FileNv, StartFault>
        ensures unharmed { IfOk result (λ nv. ⟦<FileNv as Nv>⟧.meters nv ≡ unharmed) }
        ensures synced { IfOk result (λ nv. unsynced nv ≡ nothing_unsynced) }
    {
        let Ok(Some(file)) = whole::find(rt, path) else {
            return Err(StartFault);
        };
        let found = file.metadata().map_err(|_| StartFault)?;
        let size = u32::try_from(found.len()).map_err(|_| StartFault)?;
        FileNv::over(rt.alloc(), file, size)
    }

    // The storage in a file of so many bytes, which are all on the disk.
    fn over(alloc: Global, file: File, size: u32) -> Result<FileNv, StartFault>
        ensures unharmed { IfOk result (λ nv. ⟦<FileNv as Nv>⟧.meters nv ≡ unharmed) }
        ensures synced { IfOk result (λ nv. unsynced nv ≡ nothing_unsynced) }
    {
        Ok(FileNv {
            ahead: Ahead::new(alloc, size).map_err(|_| StartFault)?,
            file,
            size,
            faults: 0,
            range: None,
            failed: false,
        })
    }

    /// Whether no call on the file failed, and all that was written is on the disk.
    pub fn is_settled(&self) -> bool
        ensures { IsTrue result ↔ ((⟦<FileNv as Nv>⟧.meters self.now ≡ unharmed) × (unsynced self.now ≡ nothing_unsynced)) }
    {
        self.faults == 0 && self.range.is_none() && !self.failed
    }

    /// Answers for a call on the file, and counts it where it failed.
    fn answer(&mut self, went: bool) -> Result<(), NvFail>
        ensures size { self.new.size ≡ self.old.size }
        ensures unsynced { unsynced self.new ≡ unsynced self.old }
        ensures ahead { self.new.ahead ≡ self.old.ahead }
        ensures as_it_went { is_ok result ≡ went }
        ensures counted { Answers (⟦<FileNv as Nv>⟧.meters self.old) (⟦<FileNv as Nv>⟧.meters self.new) result }
    {
        if went {
            return Ok(());
        }
        self.faults = self.faults.saturating_add(1);
        Err(NvFail::Fault)
    }

    /// Reads a range, and more of the file about it at once, so that reads of places nearby ask nothing of the system. Answers
    /// whether that went well.
    fn fetch(&mut self, at: u32, buf: &mut [u8]) -> bool
        requires { at + length buf.old ≤ self.old.size }
        ensures bytes { Fetched self.old.ahead self.new.ahead at buf.old buf.new result }
        ensures unsynced { unsynced self.new ≡ unsynced self.old }
        ensures counts { (self.new.size ≡ self.old.size) × (self.new.faults ≡ self.old.faults) }
    {
        self.ahead.asked = false;
        if self.ahead.copy(at, buf) {
            return true;
        }
        if self.ahead.fill(&self.file, at, self.size) && self.ahead.copy(at, buf) {
            return true;
        }
        self.ahead.read(&self.file, at, buf)
    }

    /// Writes a range, and answers whether that went well. If places lie between it and what is not synced yet, the
    /// unsynced bytes are synced before.
    fn put(&mut self, at: u32, bytes: &[u8]) -> bool
        requires { at + length bytes.now ≤ self.old.size }
        ensures range { (self.new.range ≡ Some (joined self.old.range (at, at + length bytes.now)))
            ⊎ ((result ≡ false) × (leaves_a_gap self.old.range (at, at + length bytes.now) ≡ true) × (self.new.range ≡ self.old.range)) }
        ensures failed { self.new.failed ≡ self.old.failed }
        ensures ahead { self.new.ahead ≡ self.old.ahead }
        ensures counts { (self.new.size ≡ self.old.size) × (self.new.faults ≡ self.old.faults) }
    {
        let new = (at, at + bytes.len() as u32);
        let range = match self.range {
            None => new,
            Some(old) if are_apart(old, new) => {
                if self.file.sync_all().is_err() {
                    return false;
                }
                new
            }
            Some(old) => (old.0.min(new.0), old.1.max(new.1)),
        };
        self.range = Some(range);
        self.file.write_all_at(bytes, u64::from(at)).is_ok()
    }

    /// Writes a range again, as a read gives it now.
    fn write_again(&self, range: (u32, u32)) -> io::Result<()> {
        let mut piece = [0; PIECE as usize];
        for at in (range.0..range.1).step_by(PIECE as usize) {
            let len = (range.1 - at).min(PIECE);
            let piece = &mut piece[..len as usize];
            self.file.read_exact_at(piece, u64::from(at))?;
            self.file.write_all_at(piece, u64::from(at))?;
        }
        Ok(())
    }

    /// Makes sure of what was written. After a failure a sync alone would leave out what the system takes for written.
    fn make_sure(&self) -> io::Result<()> {
        if let (true, Some(range)) = (self.failed, self.range) {
            self.write_again(range)?;
        }
        self.file.sync_all()
    }
}

impl Nv for FileNv {
    ghost use Rattle.nv_file.specs.Aheads.{window_of, has_asked};
    ghost use Rattle.nv_file.specs.Files.{unsynced, WriteIs, SyncIs};

    ghost tells = { ⊥ };

    ghost size = { λ s. s.size };

    ghost content = { λ s. [] };

    ghost base = { λ s. [] };

    ghost written = { λ s i. false };

    ghost times = { λ s. record { moment = 0; since = λ t c. ⊥ } };

    ghost meters = { λ s. record { cuts = 0; faults = s.faults; lost = false; fuse = None } };

    ghost read_is = { λ old new result. (unsynced new ≡ unsynced old)
        × (window_of old.ahead ≡ None → has_asked new.ahead ≡ true) };

    ghost write_is = { λ old new at bytes result. WriteIs (unsynced old) (unsynced new) (at, at + length bytes) result
        × (window_of new.ahead ≡ None) };

    ghost sync_is = { λ old new result. SyncIs (unsynced old) (unsynced new) result × (window_of new.ahead ≡ None) };

    ghost restart_is = { λ old new result. SyncIs (unsynced old) (unsynced new) result × (window_of new.ahead ≡ None) };

    ghost content_is = { λ s tells. absurd tells };

    ghost image_is = { λ s c tells. absurd tells };

    ghost image_all = { λ s c tells. absurd tells };

    ghost sized = { λ s t c tells. absurd tells };

    ghost nested = { λ s tells. absurd tells };

    fn size(&self) -> u32 {
        self.size
    }

    fn read(&mut self, at: u32, buf: &mut [u8]) -> Result<(), NvFail> {
        let went = self.fetch(at, buf);
        self.answer(went)
    }

    fn write(&mut self, at: u32, bytes: &[u8]) -> Result<(), NvFail> {
        self.ahead.forget();
        let went = !self.failed && self.put(at, bytes);
        self.failed = !went;
        self.answer(went)
    }

    fn sync(&mut self) -> Result<(), NvFail> {
        self.ahead.forget();
        let done = self.make_sure();
        if done.is_err() {
            self.failed = true;
            return self.answer(false);
        }
        self.failed = false;
        self.range = None;
        self.ahead.begin();
        self.answer(true)
    }

    /// If nothing is unsynced, nothing is asked of the system.
    fn restart(&mut self) -> Result<(), NvFail> {
        self.ahead.forget();
        if self.range.is_none() && !self.failed {
            return Ok(());
        }
        self.sync()
    }
}
