// What the programs have in common: what they do with their arguments, how they say that something is refused, and
// how they end. What is printed no contract can speak of.
#![tactic(auto)]

ghost use Rattle.std.specs.Prelude.{◌≡◌, ◌≤◌, true, false, Ok, Some, is_err};
ghost use Rattle.std.specs.Process.{exit_status};

use anyhow::anyhow;
use std::fmt;
use std::process::ExitCode;

// Runs a program by what its arguments name, or prints its help where they ask for that. The status is 1 where
// something went wrong, which has been said. Where the arguments name something, the work is done on it, and the status
// is 1 just where it fails.
pub fn run<T: Drop, F: FnOnce(T) -> anyhow::Result<()>>(
    rt: &HostRuntime,
    program: &str,
    help: &str,
    named: anyhow::Result<Option<T>>,
    work: F,
) -> ExitCode
    requires { F.IsAlwaysCallable work }
    ensures status { exit_status result ≤ 1 }
    ensures wrong { is_err named ≡ true → exit_status result ≡ 1 }
    ensures done { (x : T) → named ≡ Ok (Some x) → (r : _) × F.post work x r × (is_err r ≡ true → exit_status result ≡ 1) × (is_err r ≡ false → exit_status result ≡ 0) }
{
    match run_by(rt, program, help, named, work) {
        Ok(()) => ExitCode::SUCCESS,
        Err(_) => ExitCode::FAILURE,
    }
}

// The same, with what went wrong.
fn run_by<T: Drop, F: FnOnce(T) -> anyhow::Result<()>>(
    rt: &HostRuntime,
    program: &str,
    help: &str,
    named: anyhow::Result<Option<T>>,
    work: F,
) -> anyhow::Result<()>
    requires { F.IsAlwaysCallable work }
    ensures wrong { is_err named ≡ true → is_err result ≡ true }
    ensures done { (x : T) → named ≡ Ok (Some x) → F.post work x result }
{
    match named {
        Ok(Some(named)) => work(named),
        Ok(None) => Ok(rt.println(help)?),
        Err(error) => {
            eprintln!(rt; "{program}: {error}")?;
            Err(error)
        }
    }
}

// Prints the numbers of a refusal, and on standard error what they mean.
pub fn refuse<N: fmt::Display, C: fmt::Display>(
    rt: &HostRuntime,
    numbers: &N,
    cause: &C,
) -> anyhow::Result<()>
    ensures { is_err result ≡ true }
{
    println!(rt; "refused {numbers}")?;
    eprintln!(rt; "{cause}")?;
    Err(anyhow!("refused"))
}
