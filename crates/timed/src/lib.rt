// What the programs share that are there to be timed.
#![tactic(auto)]

ghost use Rattle.std.specs.Prelude.{◌≡◌, IfOk};
ghost use Rattle.std.specs.Option.{option_map, unwrap_or};
ghost use Rattle.timed.specs.Calls.{CalledTimes};
ghost use Rattle.timed.specs.Words.{spelled};

use anyhow::{Result, anyhow};
use std::env;

// What such a program is to do: a file, how many contacts, and how often it is to be answered.
#[derive(Drop)]
pub struct Task {
    pub path: String,
    pub contacts: usize,
    pub times: u32,
}

impl Task {
    // The task of a file and of the words for its numbers; with no word for how often, it is to be answered once.
    fn read(path: String, contacts: &str, times: Option<&str>) -> Result<Self>
        ensures path { IfOk result (λ task. task.path ≡ path) }
        ensures contacts { IfOk result (λ task. task.contacts ≡ spelled contacts.now) }
        ensures times { IfOk result (λ task. task.times ≡ unwrap_or (option_map (λ word. spelled word.now) times.entry) 1) }
    {
        let contacts = contacts.parse::<usize>()?;
        let times = match times {
            Some(count) => count.parse::<u32>()?,
            None => 1,
        };
        Ok(Task {
            path,
            contacts,
            times,
        })
    }

    // The task that FILE N [REPEAT] names.
    pub fn from_args(rt: &HostRuntime, program: &str) -> Result<Self> {
        let mut args = env::args(rt)?.skip(1);
        let (Some(path), Some(contacts)) = (args.next(), args.next()) else {
            return Err(anyhow!("usage: {program} FILE N [REPEAT]"));
        };
        Task::read(path, contacts.as_str(), args.next().as_deref())
    }
}

// Answers that many times and at least once, with what the last call gives.
pub fn repeated<R: Drop, F: FnMut() -> R>(times: u32, mut answer: F) -> R
    requires callable { F.IsAlwaysCallable answer }
    ensures called_so_often { CalledTimes F.step answer times result }
{
    for _call in 1..times {
        let _ = answer();
    }
    answer()
}
