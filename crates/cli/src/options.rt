//! How a line asks for a program to be run.

ghost use Rattle.std.specs.Prelude.{◌≡◌};
ghost use Rattle.cli.specs.Options.{options_in};

use crate::line_options::LineOptions;
use base::RunOptions;

/// How the program is to be run; by two workers where the line asks for none.
pub(crate) fn run_options(given: LineOptions) -> RunOptions
    ensures { result ≡ options_in given }
{
    RunOptions {
        workers: given.workers.unwrap_or(2),
        tend: seed_of(given.tend),
    }
}

fn seed_of(tend: Option<u32>) -> Option<u64>
    ensures { result ≡ tend }
{
    match tend {
        Some(seed) => Some(u64::from(seed)),
        None => None,
    }
}
