// That the calls which need memory succeed, at lines and input longer than what is kept without a heap.
use super::*;
use std::alloc::{AllocError, AllocFailed, Allocator, Global};
use std::cell::Cell;
use std::fmt::Display;
use std::io;
use std::io::BufRead;
use std::test::Fail;

// A runtime with an input of its own, which keeps what is printed.
#[derive(Drop)]
struct Stage<'a> {
    rt: HostRuntime,
    input: &'a [u8],
    printed: Cell<String>,
}

impl Alloc for Stage<'_> {
    type A = Global;

    fn alloc(&self) -> Global {
        self.rt.alloc()
    }
}

impl Stage<'_> {
    fn keep(&self, text: &str) -> io::Result<()> {
        let mut printed = self.printed.replace(String::new(self.alloc()));
        printed.push_str(text)?;
        self.printed.set(printed);
        Ok(())
    }
}

impl Print for Stage<'_> {
    fn print<D: Display + Drop>(&self, value: D) -> io::Result<()> {
        self.keep(format!(in self.alloc(); "{value}")?.as_str())
    }

    fn println<D: Display + Drop>(&self, value: D) -> io::Result<()> {
        self.print(value)?;
        self.keep("\n")
    }

    fn write_all(&self, _bytes: &[u8]) -> io::Result<()> {
        Ok(())
    }
}

impl<'a> Input for Stage<'a> {
    type Reader = &'a [u8];

    fn read_line<A: Allocator + Clone>(&self, buf: &mut String<A>) -> io::Result<usize> {
        let mut input = self.input;
        input.read_line(buf)
    }

    fn lines<A: Allocator>(&self, alloc: A) -> io::Lines<&'a [u8], A> {
        self.input.lines(alloc)
    }

    fn reader(&self) -> &'a [u8] {
        self.input
    }
}

#[test]
fn reads_lines_of_any_length(rt: HostRuntime) -> Result<(), Fail> {
    let alloc = rt.alloc();
    let list = numbers(alloc, "1 ff 0 ffffffffffffffff")?;
    assert_eq!(rt; list.as_slice(), [1, 255, 0, u64::MAX].as_slice());
    assert_eq!(rt; numbers(alloc, "1  2").err(), Some(LineError::Malformed));
    let mut line = String::new(alloc);
    for word in ["3ff0000000000000 "; 300] {
        line.push_str(word)?;
    }
    line.push_str("4000000000000000")?;
    let list = numbers(alloc, line.as_str())?;
    assert_eq!(rt; list.len(), 301);
    let list = doubles(alloc, list.as_slice())?;
    assert_eq!(rt; list.len(), 301);
    assert_eq!(rt;
        (list.first().copied(), list.last().copied()),
        (Some(1.0), Some(2.0))
    );
    Ok(())
}

// One compartment of volume 4 with clearance 2, with room for two volumes and six exchanges, and a depot that empties at 1.
#[test]
fn reads_parameters_with_rooms_of_any_size(rt: HostRuntime) -> Result<(), Fail> {
    let two = 0x4000_0000_0000_0000;
    let four = 0x4010_0000_0000_0000;
    let one = 0x3ff0_0000_0000_0000;
    let line = [two, 1, four, 0, 0, 0, 0, 0, 0, 0, 0, 1, one, 7];
    let mut words = Words::new(&line);
    let parameters = Parameters::read(rt.alloc(), &mut words, 2, 6)?;
    assert_eq!(rt; parameters.clearance, 2.0);
    assert_eq!(rt; parameters.volumes.as_slice(), [4.0].as_slice());
    assert_eq!(rt; parameters.exchanges.len(), 0);
    assert_eq!(rt; parameters.absorption, Some(1.0));
    assert_eq!(rt; parameters.state_count(), 2);
    assert_eq!(rt; parameters.made().map(|kernel| kernel.state_count()), Ok(2));
    assert_eq!(rt; words.end(), Err(LineError::Malformed));
    assert_eq!(rt; words.word(), Ok(7));
    assert_eq!(rt; words.end(), Ok(()));
    Ok(())
}

#[test]
fn reads_a_sheet(rt: HostRuntime) -> Result<(), Fail> {
    let alloc = rt.alloc();
    let sheet = Sheet::read(alloc, "9;1f;807060504030201 9;reached/")?;
    assert_eq!(rt;
        sheet.bytes.as_slice(),
        [1, 2, 3, 4, 5, 6, 7, 8, 9].as_slice()
    );
    assert_eq!(rt; sheet.number, 31);
    assert_eq!(rt; sheet.printout, "reached/");
    assert_eq!(rt;
        Sheet::read(alloc, "9;1f;1;reached/").err(),
        Some(LineError::Malformed)
    );
    Ok(())
}

// The number of a line as its entry: a call that is as stored where the number is even.
fn called(alloc: Global, line: &str) -> Result<Called<u64>, LineError> {
    let list = numbers(alloc, line)?;
    let entry = list.first().copied().ok_or(LineError::Malformed)?;
    Ok(Called::new(entry, Ok(()), entry % 2, true))
}

#[test]
fn replays_lines_of_any_entries(rt: HostRuntime) -> Result<(), Fail> {
    let alloc = rt.alloc();
    let mut lines = Vec::new(alloc);
    for line in ["# 8", "8", "5", "8 9", "b", "c", "100", "none"] {
        lines.push(line.as_bytes().to_vec(alloc)?)?;
    }
    lines.push([255].to_vec(alloc)?)?;
    let tally = replay_lines(&rt, lines.into_iter(), |line| called(alloc, line))?;
    assert_eq!(rt; (tally.lines, tally.answers, tally.differ), (9, 8, 4));
    Ok(())
}

#[test]
fn replays_input_of_any_length(rt: HostRuntime) -> Result<(), Fail> {
    let alloc = rt.alloc();
    let mut input = String::new(alloc);
    input.push_str("# ")?;
    let text =
        "longer than what is read of input without a heap, said as often as it takes to be that; ";
    for text in [text; 3000] {
        input.push_str(text)?;
    }
    input.push_str("\n8\n5\n8\nb")?;
    let stage = Stage {
        rt,
        input: input.as_bytes(),
        printed: Cell::new(String::new(alloc)),
    };
    replay_main(&stage, called)?;
    let printed = stage.printed.into_inner();
    assert_eq!(rt;
        printed.as_str(),
        "line 3 differs\nline 5 differs\n5 0: 1\n8 0: 2\n11 0: 1\n4 answers, 2 differ\n"
    );
    Ok(())
}

#[test]
fn tells_memory_from_layout(rt: HostRuntime) {
    assert_eq!(rt; LineError::from(AllocError), LineError::OutOfMemory);
    assert_eq!(rt;
        LineError::from(AllocFailed { value: 8u64 }),
        LineError::OutOfMemory
    );
    assert_eq!(rt; NoCall::from(LineError::Malformed), NoCall);
}
