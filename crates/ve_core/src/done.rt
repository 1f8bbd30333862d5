//! The jobs that are done.

ghost use Rattle.std.specs.Prelude.{◌≡◌, ◌↔◌, [], ◌∷◌, Contains, IsTrue, OnErr, OnOk};
ghost use Rattle.ve_hand.specs.Jobs.{job_of};
ghost use Rattle.ve_core.specs.Dones.{job_of_key};

use indexmap::IndexSet;
use std::alloc::Global;
use std::marker::Model;
use ve_hand::Job;
use ve_word::Memory;

/// A job, as it is looked up.
#[derive(Clone, Copy, PartialEq, Eq, Hash)]
enum Key {
    Relator { id: u32, number: u32 },
    Sub { number: u32 },
    Image { id: u32, letter: u8 },
}

/// The jobs that are done, the last one first.
#[derive(Drop)]
pub(crate) struct Done {
    keys: IndexSet<Key>,
}

impl Model for Done {
    ghost use Rattle.std.specs.Prelude.{List};
    ghost use Rattle.std.specs.Coded.{coded_list};
    ghost use Rattle.ve_machine.specs.Seats.{Job as SeatJob};
    ghost use Rattle.ve_machine.specs.MachineCodes.{job_code};

    ghost Value = { List SeatJob };

    ghost coded = { coded_list job_code };

    ghost use Rattle.ve_core.specs.Dones.{jobs_of};

    ghost view = { λ done. jobs_of done.keys.keys };
}

impl Done {
    pub(crate) fn new(alloc: Global) -> Done
        ensures { result ≡ [] }
    {
        Done {
            keys: IndexSet::new(alloc),
        }
    }

    pub(crate) fn contains(&self, job: Job) -> bool
        ensures { IsTrue result ↔ Contains self.now (job_of job) }
    {
        self.keys.contains(&key_of(job))
    }

    pub(crate) fn add(&mut self, job: Job) -> Result<(), Memory>
        requires { ¬ Contains self.old (job_of job) }
        ensures ok { OnOk result (self.new ≡ job_of job ∷ self.old) }
        ensures err { OnErr result (self.new ≡ self.old) }
    {
        self.keys.insert(key_of(job))?;
        Ok(())
    }
}

fn key_of(job: Job) -> Key
    ensures { job_of_key result ≡ job_of job }
{
    match job {
        Job::Relator { id, number } => Key::Relator { id, number },
        Job::Sub { number } => Key::Sub { number },
        Job::Image { id, letter } => Key::Image { id, letter },
    }
}
