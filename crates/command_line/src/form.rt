ghost use Rattle.std.specs.Prelude.{◌≡◌, IfOk, map, option_map, true};
ghost use Rattle.clap.specs.Words.{app_of, found_of, is_simple_and_free, rows_of};
ghost use Rattle.command_line.specs.Form.{blank, given, with_word, with_workers};

use clap::error::ErrorKind;
use clap::{Arg, ArgMatches};
use pf_num::OutOfMemory;
use std::alloc::{AllocError, Global};
use std::convert::AsStr;

/// What clap is told of a command: what may follow the command's own word.
#[derive(Drop)]
pub(crate) struct Form<'a> {
    command: clap::Command<'a>,
}

impl<'a> Form<'a> {
    /// Nothing may follow.
    pub(crate) fn new(alloc: Global) -> Self
        ensures { app_of result.command ≡ blank }
    {
        Form {
            command: clap::Command::new(alloc, "fdps").no_binary_name(true),
        }
    }

    /// One more word has to be there.
    pub(crate) fn word(self, alloc: Global, id: &'a str) -> Result<Self, AllocError>
        ensures { IfOk result (λ form. app_of form.command ≡ with_word id.entry.now (app_of self.entry.command)) }
    {
        let word = Arg::new(alloc, id).required(true);
        Ok(Form {
            command: self.command.arg(word)?,
        })
    }

    /// The option `--workers` may be there, with its value.
    pub(crate) fn workers(self, alloc: Global) -> Result<Self, AllocError>
        ensures { IfOk result (λ form. app_of form.command ≡ with_workers (app_of self.entry.command)) }
    {
        let workers = Arg::new(alloc, "workers").long("workers");
        Ok(Form {
            command: self.command.arg(workers)?,
        })
    }

    /// What the words give, where clap takes them.
    pub(crate) fn given<W: AsStr>(
        self,
        words: &'a [W],
    ) -> Result<Option<ArgMatches<'a>>, OutOfMemory>
        requires { is_simple_and_free (app_of self.command) ≡ true }
        ensures { IfOk result (λ matches. option_map (λ m. rows_of (found_of m)) matches
            ≡ given (app_of self.entry.command) (map W.text words.entry.now)) }
    {
        match self.command.try_get_matches_from(words) {
            Ok(matches) => Ok(Some(matches)),
            Err(error) if error.kind() == ErrorKind::OutOfMemory => Err(OutOfMemory),
            Err(_) => Ok(None),
        }
    }
}
