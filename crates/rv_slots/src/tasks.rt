//! The tasks of a run, in the order of their first use.
ghost use Rattle.std.specs.Prelude.{◌≡◌, ◌<◌, ◌≤◌, ◌↔◌, ◌++◌, [], ◌∷◌, length, true, false, position, AllPairs, IsErrOf, IsNone, IfOk, OnOk, OnErr, slice_get, Some};
ghost use Rattle.rv_slots.specs.Tasks.{task_of, same_task, is_held, with_task, task_number, IsTask};

use crate::task::task_of;
use indexmap::IndexSet;
use rv_model::Task;
use std::alloc::{AllocError, Global};
use std::marker::Model;
use thiserror::Error;

/// The most tasks that a run may have.
pub const MAX_TASKS: u32 = 65_536;

/// How many guesses there are at first.
const FIRST_GUESSES: usize = 1024;

/// Why a task has no number.
#[derive(Clone, Copy, Debug, Drop, Error, PartialEq, Eq)]
pub enum TaskFault {
    /// The task is new, and as many are held as may be.
    #[error("too many tasks")]
    Full,
    #[error("out of memory")]
    Memory,
}

/// Tasks without repeats. A task's number is its place.
pub struct Tasks {
    set: IndexSet<Task>,
    /// By the last bits of a pid, the number of the last task that had them. It is tried first, and may be another's.
    guesses: Vec<u32>,
}

/// Taken apart once, here, so that what drops one has nothing to prove of its parts.
impl Drop for Tasks {
    fn drop(self) {
        let Tasks { set: _, guesses: _ } = self;
    }
}

impl Model for Tasks {
    ghost use Rattle.std.specs.Prelude.{List, length, ◌≤◌, All};
    ghost use Rattle.rv_slots.specs.Tasks.{IsTask};
    ghost use Rattle.rv_model.specs.declared.record.Task.{Task};
    ghost use Rattle.rv_slots.specs.declared.tasks.TheConstants.{MAX_TASKS};

    ghost Value = { List Task };

    ghost view = { λ t. t.set.keys };

    ghost invariant = { λ t. (length t.set.keys ≤ MAX_TASKS) × All IsTask t.set.keys };
}

impl Tasks {
    pub fn new(alloc: Global) -> Tasks
        ensures { result ≡ [] }
    {
        Tasks {
            set: IndexSet::new(alloc),
            guesses: Vec::new(alloc),
        }
    }

    /// How many tasks there are.
    pub fn len(&self) -> u32
        ensures length { result ≡ length self.now }
        ensures few { result ≤ MAX_TASKS }
        ensures distinct { AllPairs (λ a b. same_task a b ≡ false) self.now }
    {
        self.set.len() as u32
    }

    /// The task's number, which it keeps from its first use on.
    pub fn number(&mut self, pid: u32, cpu: u8) -> Result<u32, TaskFault>
        ensures number { IfOk result (λ number. number ≡ task_number self.old (task_of pid cpu)) }
        ensures numbered { IfOk result (λ number. slice_get self.new number ≡ Some (task_of pid cpu)) }
        ensures grown { OnOk result (self.new ≡ with_task self.old (task_of pid cpu)) }
        ensures full { IsErrOf result TaskFault.Full ↔ ((is_held self.old (task_of pid cpu) ≡ false) × (length self.old ≡ MAX_TASKS)) }
        ensures err { OnErr result (self.new ≡ self.old) }
    {
        let task = task_of(pid, cpu);
        let guess = self.guess(task);
        if self.is_numbered(guess, task) {
            return Ok(guess);
        }
        match self.find(pid, cpu) {
            Some(number) => {
                self.remember(task, number);
                Ok(number)
            }
            None => self.add(task),
        }
    }

    /// The number of a task that is held.
    pub fn find(&self, pid: u32, cpu: u8) -> Option<u32>
        ensures found { result ≡ position (same_task (task_of pid cpu)) self.now }
        ensures none { IsNone result ↔ (is_held self.now (task_of pid cpu) ≡ false) }
    {
        match self.set.get_index_of(&task_of(pid, cpu)) {
            Some(number) => Some(number as u32),
            None => None,
        }
    }

    /// The task of a number.
    pub fn task(&self, number: u32) -> Task
        requires { number < length self.now }
        ensures held { slice_get self.now number ≡ Some result }
        ensures task { IsTask result }
    {
        self.set.as_slice()[number as usize]
    }

    /// Whether the task of the number is this one.
    fn is_numbered(&self, number: u32, task: Task) -> bool
        ensures holds { (result ≡ true) ↔ (slice_get self.now number ≡ Some task) }
        ensures first { result ≡ true → position (same_task task) self.now ≡ Some number }
    {
        let tasks = self.set.as_slice();
        if number as usize >= tasks.len() {
            return false;
        }
        tasks[number as usize] == task
    }

    /// Where the task's guess stands.
    fn guess_place(&self, task: Task) -> usize {
        (task.pid as usize + task.cpu as usize) & self.guesses.len().saturating_sub(1)
    }

    /// A number that the task may have.
    fn guess(&self, task: Task) -> u32 {
        match self.guesses.get(self.guess_place(task)) {
            Some(number) => *number,
            None => 0,
        }
    }

    /// Makes the number the task's guess.
    fn remember(&mut self, task: Task, number: u32)
        ensures { self.new ≡ self.old }
    {
        let place = self.guess_place(task);
        if let Some(guess) = self.guesses.get_mut(place) {
            *guess = number;
        }
    }

    /// Adds a task that is not held.
    fn add(&mut self, task: Task) -> Result<u32, TaskFault>
        requires new { is_held self.old task ≡ false }
        requires task { IsTask task }
        ensures number { IfOk result (λ number. number ≡ length self.old) }
        ensures grown { OnOk result (self.new ≡ self.old ++ task ∷ []) }
        ensures full { IsErrOf result TaskFault.Full ↔ (length self.old ≡ MAX_TASKS) }
        ensures err { OnErr result (self.new ≡ self.old) }
    {
        let number = self.set.len() as u32;
        if number >= MAX_TASKS {
            return Err(TaskFault::Full);
        }
        match self.put(task) {
            Ok(()) => {
                self.remember(task, number);
                Ok(number)
            }
            Err(_) => Err(TaskFault::Memory),
        }
    }

    /// Makes room for more guesses where they are few beside the tasks.
    fn make_room(&mut self) -> Result<(), AllocError>
        ensures { self.new ≡ self.old }
    {
        let room = self.guesses.len();
        if room <= 2 * self.set.len() {
            self.guesses.resize(2 * room.max(FIRST_GUESSES), 0)?;
        }
        Ok(())
    }

    /// Adds a task under the next number.
    fn put(&mut self, task: Task) -> Result<(), AllocError>
        requires new { is_held self.old task ≡ false }
        requires task { IsTask task }
        requires few { length self.old < MAX_TASKS }
        ensures grown { OnOk result (self.new ≡ self.old ++ task ∷ []) }
        ensures err { OnErr result (self.new ≡ self.old) }
    {
        self.make_room()?;
        self.set.insert(task)?;
        Ok(())
    }
}
