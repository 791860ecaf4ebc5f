//! Storages that start together: after a clean end as they are, otherwise none takes its name before the bytes of all are
//! on the disk.
ghost use Rattle.std.specs.Prelude.{◌≡◌, ◌↔◌, ◌++◌, ◌<◌, IfOk, IsSome, length, option_to_list};
ghost use Rattle.std.specs.List.{All};
ghost use Rattle.nv_model.specs.Meters.{unharmed};
ghost use Rattle.nv_file.specs.Files.{unsynced, nothing_unsynced};
ghost use Rattle.nv_file.specs.Starts.{are_reused, stores_of};

use crate::clean::{CLEAN, are_as_remembered, forget, recall};
use crate::file::FileNv;
use crate::whole;
use nv_model::Nv;
use std::fs::{self, File, Files};

/// A storage that a start uses: the path of its file, and how many bytes it is made with where it is missing.
#[derive(Clone, Copy, Debug, PartialEq, Eq)]
pub struct StoreFile {
    pub name: &'static str,
    pub bytes: u32,
}

/// Storages with all their bytes on the disk, each in a new file beside its place, or in its own file after a clean end. No
/// storage is changed yet.
#[derive(Drop)]
pub struct Starting<'a> {
    files: &'a [StoreFile],
    stores: Vec<FileNv>,
    /// Whether each new file is the first of its name.
    firsts: Vec<bool>,
    /// What was remembered of the last clean end.
    remembered: Option<String>,
    /// Whether the storages are used as they are, after that clean end.
    are_reused: bool,
}

impl Starting<'_> {
    /// Prepares each storage: as it is if a clean end is remembered of all of them, otherwise as `FileNv::start` does. If
    /// one can't be used, its name is answered, nothing that was prepared is left, and no storage is changed.
    pub fn prepare<'a, R: Files<File = File> + AllocGlobal>(
        rt: &R,
        files: &'a [StoreFile],
    ) -> Result<Starting<'a>, &'static str>
        ensures each { IfOk result (λ starting. length (stores_of starting) ≡ length files.now) }
        ensures unharmed { IfOk result (λ starting. All (λ nv. ⟦<FileNv as Nv>⟧.meters nv ≡ unharmed) (stores_of starting)) }
        ensures synced { IfOk result (λ starting. All (λ nv. unsynced nv ≡ nothing_unsynced) (stores_of starting)) }
    {
        let remembered = recall(rt);
        let are_same = match &remembered {
            Some(text) => are_as_remembered(rt, files, text.as_str()),
            None => false,
        };
        if are_same {
            return Starting::reuse(rt, files, remembered);
        }
        let mut stores = Vec::new(rt.alloc());
        let mut firsts = Vec::new(rt.alloc());
        for file in files {
            let ready = match FileNv::prepare(rt, file.name, file.bytes) {
                Ok((store, is_first)) => {
                    stores.push(store).is_ok() && firsts.push(is_first).is_ok()
                }
                Err(_) => false,
            };
            if !ready {
                discard_all(rt, files);
                return Err(file.name);
            }
        }
        Ok(Starting {
            files,
            stores,
            firsts,
            remembered,
            are_reused: false,
        })
    }

    // The storages as they are.
    fn reuse<'a, R: Files<File = File> + AllocGlobal>(
        rt: &R,
        files: &'a [StoreFile],
        remembered: Option<String>,
    ) -> Result<Starting<'a>, &'static str>
        ensures each { IfOk result (λ starting. length (stores_of starting) ≡ length files.now) }
        ensures unharmed { IfOk result (λ starting. All (λ nv. ⟦<FileNv as Nv>⟧.meters nv ≡ unharmed) (stores_of starting)) }
        ensures synced { IfOk result (λ starting. All (λ nv. unsynced nv ≡ nothing_unsynced) (stores_of starting)) }
    {
        let mut stores = Vec::new(rt.alloc());
        for file in files {
            let ready = match FileNv::reuse(rt, file.name) {
                Ok(store) => stores.push(store).is_ok(),
                Err(_) => false,
            };
            if !ready {
                return Err(file.name);
            }
        }
        Ok(Starting {
            files,
            stores,
            firsts: Vec::new(rt.alloc()),
            remembered,
            are_reused: true,
        })
    }

    /// Hands out the last storage, so that it can be read before any takes its name; it takes its name with the others.
    /// None if no storage is left.
    pub fn take_last(&mut self) -> Option<FileNv>
        ensures last { stores_of self.old ≡ stores_of self.new ++ option_to_list result }
        ensures some { IsSome result ↔ (0 < length (stores_of self.old)) }
        ensures reused { are_reused self.new ≡ are_reused self.old }
    {
        self.stores.pop()
    }

    /// Gives each storage its name, makes sure of the names, and hands out the storages with what was remembered of the last clean end, which is forgotten. If
    /// that fails at one its name is answered: those that were there hold what they held, and those that were made are removed again, if they can be.
    pub fn settle<R: Files<File = File> + AllocGlobal>(
        self,
        rt: &R,
    ) -> Result<(Vec<FileNv>, Option<String>), &'static str>
        ensures kept { IfOk result (λ settled. settled.0.items ≡ stores_of self.entry) }
    {
        let Starting {
            files,
            stores,
            firsts,
            remembered,
            are_reused,
        } = self;
        let forgotten = forget(rt);
        if are_reused {
            return match forgotten {
                Ok(()) => Ok((stores, remembered)),
                Err(_) => Err(CLEAN),
            };
        }
        for (named, file) in files.iter().enumerate() {
            if whole::give_name(rt, file.name).is_err() {
                remove_firsts(rt, files, &firsts, named);
                discard_all(rt, files);
                return Err(file.name);
            }
        }
        for file in files {
            if whole::sync_folder(rt, file.name).is_err() {
                remove_firsts(rt, files, &firsts, files.len());
                return Err(file.name);
            }
        }
        Ok((stores, remembered))
    }

    /// Removes what was prepared. The storages are as they were before.
    pub fn discard<R: Files<File = File> + AllocGlobal>(self, rt: &R) {
        if !self.are_reused {
            discard_all(rt, self.files);
        }
    }
}

/// Removes what a start that was stopped left in the making for the storage of a name.
pub fn remove_part<R: Files<File = File> + AllocGlobal>(rt: &R, name: &str) {
    whole::discard(rt, name);
}

// Removes each of the first `named` files that is the first of its name.
fn remove_firsts<R: Files<File = File>>(
    rt: &R,
    files: &[StoreFile],
    firsts: &[bool],
    named: usize,
) {
    for (file, is_first) in files.iter().zip(firsts).take(named) {
        if *is_first {
            let _ = fs::remove_file(rt, file.name);
        }
    }
}

fn discard_all<R: Files<File = File> + AllocGlobal>(rt: &R, files: &[StoreFile]) {
    for file in files {
        whole::discard(rt, file.name);
    }
}
