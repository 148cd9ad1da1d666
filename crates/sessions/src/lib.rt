// The programs bench and replay: lines from standard input, answers to standard output.
#![tactic(auto)]

ghost use Rattle.std.specs.Prelude.{◌≡◌, ◌+◌, ◌≤◌, length, set};
ghost use Rattle.sessions.specs.Fill.{filled_of};
ghost use Rattle.sessions.specs.Program.{OutputOnly};

use answers::Transfer;
use answers_ticks::Tick;
use commands::Command;
use lines::{Line, Scanned};
use std::env::FillError;
use std::io;
use std::io::Read;
use std::rt::{Env, Stdout};
use text::Output;

// A core on lent memory, and a program that it answers: its output, whether that still takes bytes, the line that is not ended yet,
// and whether more is to be read.
#[derive(Drop)]
struct Program<'a> {
    stdout: Stdout,
    state: &'a mut [u16],
    ram: &'a mut [u8],
    marks: &'a mut [u8],
    out: Output<'a>,
    bench: bool,
    open: bool,
    line: Line,
    more: bool,
}

impl Program<'_> {
    // ---- output

    // Writes what waits, unless a write failed before.
    fn flush(&mut self)
        ensures emptied { self.new.out.place ≡ 0 }
        ensures bytes { self.new.out.bytes.now ≡ self.old.out.bytes.now }
        ensures rest { OutputOnly self.old self.new }
    {
        if self.open {
            let stdout = &mut self.stdout;
            let out = &mut self.out;
            self.open = write_all(stdout, out).is_ok();
        }
        self.out.place = 0;
    }

    // No answer's line is longer than 512 bytes: where it might not fit, what waits is written first.
    fn make_room(&mut self)
        ensures room { 512 ≤ length self.old.out.bytes.now → self.new.out.place + 512 ≤ length self.new.out.bytes.now }
        ensures bytes { self.new.out.bytes.now ≡ self.old.out.bytes.now }
        ensures rest { OutputOnly self.old self.new }
    {
        let length = self.out.bytes.len();
        if length < 512 || length - 512 < self.out.place {
            self.flush();
        }
    }

    // ---- one command

    fn inward(&mut self, l: Line, count: usize) {
        let values = commands::values(l);
        let r = calls_transfer::tenonwhisk_transfer_in(
            self.state,
            self.ram,
            self.marks,
            &values[..count.min(33)],
        );
        let m = Transfer {
            number: r.number,
            count: r.count,
            irq: r.irq,
            doubt: r.doubt,
        };
        answers::inward_answer(&mut self.out, self.bench, m);
    }

    // The buffer is lent holding A5A5h everywhere, and shown whole.
    fn outward(&mut self, count: u32)
        ensures { (self.new.ram.now ≡ self.old.ram.now) × (self.new.marks.now ≡ self.old.marks.now) }
    {
        let mut values = [0xA5A5u16; 64];
        let buffer = &mut values[..(count as usize).min(64)];
        let ram = &mut *self.ram;
        let marks = &mut *self.marks;
        let r = calls_transfer::tenonwhisk_transfer_out(self.state, ram, marks, buffer);
        let m = Transfer {
            number: r.number,
            count: r.count,
            irq: r.irq,
            doubt: r.doubt,
        };
        answers_memory::moved_out(&mut self.out, m, buffer);
    }

    // A tick raises the doubt that it reports, and keeps one raised before. `tick` and `tick_floats` stay two functions, as the calls for C
    // that they make are two, with a struct each.
    fn tick(&mut self, left: i16, right: i16) {
        let before = calls_state::tenonwhisk_status(self.state);
        let r = calls_ticks::tenonwhisk_tick(self.state, self.ram, self.marks, left, right);
        let t = Tick {
            number: r.number,
            tick: before.tick,
            left: r.left,
            right: r.right,
            irq: r.irq,
            doubt: r.doubt,
            after: before.doubt | r.doubt,
        };
        answers_ticks::tick_answer(&mut self.out, self.bench, t);
    }

    fn tick_floats(&mut self, left: i16, right: i16) {
        let before = calls_state::tenonwhisk_status(self.state);
        let r = calls_ticks::tenonwhisk_tick_floats(self.state, self.ram, self.marks, left, right);
        let t = Tick {
            number: r.number,
            tick: before.tick,
            left: r.left,
            right: r.right,
            irq: r.irq,
            doubt: r.doubt,
            after: before.doubt | r.doubt,
        };
        answers_ticks::ticked(&mut self.out, t);
    }

    fn ticks(&mut self, floats: bool, count: u32, left: i16, right: i16) {
        for _ in 0..count {
            self.make_room();
            if floats {
                self.tick_floats(left, right);
            } else {
                self.tick(left, right);
            }
        }
    }

    fn view(&mut self, address: u32)
        ensures { OutputOnly self.old self.new }
    {
        let state = &mut *self.state;
        let ram = &mut *self.ram;
        let number = calls_state::tenonwhisk_view_number(state, ram, address);
        let bytes = calls_state::block_view(state, ram, address);
        answers_memory::viewed(&mut self.out, number, bytes);
    }

    fn obey(&mut self, l: Line, command: Command) {
        match command {
            Command::Quiet => {}
            Command::Write { offset, value } => {
                let number = calls_state::tenonwhisk_write(self.state, u32::from(offset), value);
                answers::write_answer(&mut self.out, self.bench, number);
            }
            Command::Read { offset } => {
                let r = calls_state::tenonwhisk_read(self.state, u32::from(offset));
                answers::was_read(&mut self.out, r.number, r.value);
            }
            Command::Inward { count } => self.inward(l, count),
            Command::Outward { count } => self.outward(count),
            Command::Tick {
                floats,
                count,
                left,
                right,
            } => self.ticks(floats, count, left, right),
            Command::View { address } => self.view(address),
            Command::Reset => {
                let number = calls_state::tenonwhisk_reset(self.state);
                answers::was_reset(&mut self.out, number);
            }
            Command::Ram { address, count } => {
                let ram = &mut *self.ram;
                answers_memory::ram(&mut self.out, address, count, ram);
            }
            Command::Marks { address, count } => {
                let marks = &mut *self.marks;
                answers_memory::marks(&mut self.out, address, count, marks);
            }
            Command::Fill {
                address,
                count,
                byte,
            } => {
                fill(self.ram, address, count, byte);
                self.out.put_text(b"ok\n");
            }
        }
    }

    // ---- lines

    fn command_of(&self, l: Line) -> Option<Command> {
        if self.bench {
            commands_word::bench(l)
        } else {
            let now = calls_state::tenonwhisk_status(self.state);
            commands_word::replay(u64::from(now.size), l)
        }
    }

    // The answer to a line that has ended.
    fn answer(&mut self, line: Line) {
        let l = lines_scan::finish(line);
        self.make_room();
        match self.command_of(l) {
            Some(command) => self.obey(l, command),
            None => self.out.put_text(b"bad line\n"),
        }
    }

    // A piece of the input. No more is to be read once the answer to a line could not be written.
    fn take(&mut self, input: &[u8]) {
        let mut at = 0;
        while at < input.len() {
            match lines_scan::scan(self.line, input, at) {
                Scanned::Ended { line, at: next } => {
                    self.answer(line);
                    self.line = Line::fresh();
                    self.more = self.open;
                    at = next;
                }
                Scanned::Open { line, .. } => {
                    self.line = line;
                    self.more = true;
                    return;
                }
            }
        }
    }

    // Nothing says that the input ends, so the pieces are counted, up to a number that no run uses up.
    fn pieces(&mut self, stdin: &mut impl Read) -> io::Result<()> {
        let mut input = [0u8; 65536];
        for _ in 0..u64::MAX {
            if !self.more {
                return Ok(());
            }
            let n = stdin.read(&mut input)?;
            if n == 0 {
                return Ok(());
            }
            self.take(&input[..n]);
        }
        Ok(())
    }

    // The last line of the output.
    fn end(&mut self)
        ensures { OutputOnly self.old self.new }
    {
        self.make_room();
        let state = &mut *self.state;
        let now = calls_state::tenonwhisk_status(state);
        answers::ended(&mut self.out, now.doubt);
    }

    // A last piece without LF is a line if it is not empty. After a failed read neither it nor the last line of the output comes, so
    // that what was answered does not look whole.
    fn all_lines(&mut self, stdin: &mut impl Read) -> io::Result<()> {
        self.pieces(stdin)?;
        if self.line.begun {
            self.answer(self.line);
        }
        self.end();
        Ok(())
    }
}

// Writes what stands before the place.
fn write_all(stdout: &Stdout, out: &Output) -> io::Result<()> {
    if out.bytes.len() < out.place {
        return Ok(());
    }
    stdout.write_all(&out.bytes[..out.place])
}

fn store(ram: &mut [u8], i: usize, byte: u8)
    ensures { ram.new ≡ set ram.old i byte }
{
    if i < ram.len() {
        ram[i] = byte;
    }
}

// Raw bytes, not through the core; marks stay.
fn fill(ram: &mut [u8], from: u32, n: u32, byte: u8)
    ensures { ram.new ≡ filled_of ram.old from byte n }
{
    for k in 0..n {
        store(ram, from as usize + k as usize, byte);
    }
}

// ---- the programs

// A program on a core of so many bytes of sound RAM. It writes what waits at the end, and says what failed.
fn run<const RAM: usize, const MARKS: usize>(rt: &HostRuntime, name: &str, bench: bool)
    requires { (RAM ≤ 0x80000) × (MARKS ≤ 0x8000) }
{
    let mut state = [0u16; layout::LENGTH];
    let mut ram = [0u8; RAM];
    let mut marks = [0u8; MARKS];
    let mut bytes = [0u8; 65536];
    calls_state::tenonwhisk_make(RAM as u32, &mut state);
    let mut out = Output {
        bytes: &mut bytes,
        place: 0,
    };
    answers::title(&mut out, name.as_bytes(), RAM as u32);
    let mut program = Program {
        stdout: rt.stdout(),
        state: &mut state,
        ram: &mut ram,
        marks: &mut marks,
        out,
        bench,
        open: true,
        line: Line::fresh(),
        more: true,
    };
    let read = program.all_lines(&mut rt.stdin());
    program.flush();
    if read.is_err() {
        let _ = println!(rt.stderr(); "{name}: cannot read standard input");
    }
    if !program.open {
        let _ = println!(rt.stderr(); "{name}: cannot write standard output");
    }
}

// L = 65,536.
pub fn bench(rt: &HostRuntime) {
    run::<65536, 4096>(rt, "bench", true);
}

// L is the program's one argument.
pub fn replay(rt: &HostRuntime) {
    let mut text = [0u8; 8];
    let n = rt.arg(1, &mut text).unwrap_or(0);
    let alone = matches!(rt.arg(2, &mut []), Err(FillError::NotPresent));
    match &text[..n] {
        b"65536" if alone => run::<65536, 4096>(rt, "replay", false),
        b"524288" if alone => run::<524288, 32768>(rt, "replay", false),
        _ => {
            let _ = println!(rt.stderr(); "usage: replay 65536 or replay 524288");
        }
    }
}
