//! The program: its words, the desk of the system, and the top call.
#![tactic(auto)]

use combine_cli::run;
use desk_io::StdDesk;
use std::env;
use std::io::ErrorKind;
use std::process::ExitCode;
use std::rt::Env;

// The words after the program's name, or the status where there are none: 2 where a word isn't UTF-8, and 4 for want of
// memory.
fn words_of(rt: &(impl Env + AllocGlobal)) -> Result<Vec<String>, u8> {
    let mut args = match env::args(rt) {
        Ok(args) => args,
        Err(e) => {
            return Err(if e.kind() == ErrorKind::InvalidData {
                2
            } else {
                4
            });
        }
    };
    let _ = args.next();
    match args.collect(rt.alloc()) {
        Ok(words) => Ok(words),
        Err(_) => Err(4),
    }
}

fn main(rt: HostRuntime) -> ExitCode {
    match words_of(&rt) {
        Ok(words) => {
            let mut desk = StdDesk::new(&rt);
            ExitCode::from(run(&rt, rt.alloc(), &words, &mut desk))
        }
        Err(status) => ExitCode::from(status),
    }
}
