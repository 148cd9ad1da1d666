// The command that a line gives by its first field, for bench and for replay.
#![tactic(auto)]

ghost use Rattle.std.specs.Prelude.{◌≡◌};
ghost use Rattle.commands.specs.Command.{word_of, bench_of, raw_of, run_of, data_of, replay_of};

use commands::Command;
use lines::Line;

// The commands' words, as `Field::word` has them: a 1, then the bytes in base 256.
const WRITE: u64 = 0x1_77;

const READ: u64 = 0x1_72;

const INWARD: u64 = 0x1_73;

const OUTWARD: u64 = 0x1_6F;

const TICK: u64 = 0x1_74;

const FLOATS: u64 = 0x1_66;

const VIEW: u64 = 0x1_76;

const RESET: u64 = 0x1_72_65_73_65_74;

const RAM: u64 = 0x1_72_61_6D;

const MARKS: u64 = 0x1_6D_61_72_6B_73;

const FILL: u64 = 0x1_66_69_6C_6C;

// The command of a line of bench.
pub fn bench(l: Line) -> Option<Command>
    ensures { result ≡ bench_of l }
{
    match l.fields[0].word {
        WRITE => commands::write_line(l),
        INWARD => commands::inward_line(l),
        TICK => commands::plain_line(false, l),
        _ => None,
    }
}

// The lines ram, marks and fill.
fn raw(size: u64, l: Line) -> Option<Command>
    ensures { result ≡ raw_of size l }
{
    match l.fields[0].word {
        RAM => commands_raw::ram_line(size, l),
        MARKS => commands_raw::marks_line(size, l),
        FILL => commands_raw::fill_line(size, l),
        _ => None,
    }
}

// The lines t, f, v and reset, and those after them.
fn run(size: u64, l: Line) -> Option<Command>
    ensures { result ≡ run_of size l }
{
    match l.fields[0].word {
        TICK => commands::tick_line(false, l),
        FLOATS => commands::tick_line(true, l),
        VIEW => commands::view_line(l),
        RESET => commands::reset_line(l),
        _ => raw(size, l),
    }
}

// The lines w, r, s and o, and those after them.
fn data(size: u64, l: Line) -> Option<Command>
    ensures { result ≡ data_of size l }
{
    match l.fields[0].word {
        WRITE => commands::write_line(l),
        READ => commands::read_line(l),
        INWARD => commands::inward_line(l),
        OUTWARD => commands::outward_line(l),
        _ => run(size, l),
    }
}

// The command of a line of replay, on a sound RAM of size bytes.
pub fn replay(size: u64, l: Line) -> Option<Command>
    ensures { result ≡ replay_of size l }
{
    if (l.count == 0) | l.comment {
        return Some(Command::Quiet);
    }
    data(size, l)
}
