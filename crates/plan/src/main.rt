// Prints what requests become on an aligned drive: document 01's traced jobs, as far as they follow from the arithmetic.
// A line a job: what is asked, and the requests that are made, each as offset+length.
#![tactic(auto)]

use arithmetic::offsets::{Range, StoreOffset};
use arithmetic::padding::{Reads, Span, Transfer, plan_transfer};
use arithmetic::refusals::Refusal;
use arithmetic::settings::{Settings, drive_profile};
use arithmetic::zeroes::{Cut, ZeroCut, discard_cut, next_chunk, zero_cut};
use std::{fmt, io};

// offset+length
#[derive(Clone, Copy)]
struct Extent {
    start: u64,
    length: u64,
}

impl From<Range> for Extent {
    fn from(r: Range) -> Extent {
        Extent {
            start: r.start.0,
            length: r.end.0.saturating_sub(r.start.0),
        }
    }
}

impl fmt::Display for Extent {
    fn fmt<W: fmt::Write>(&self, f: &mut fmt::Formatter<W>) -> fmt::Result {
        write!(f, "{}+{}", self.start, self.length)
    }
}

fn refused(rt: &impl Print, r: Refusal) -> io::Result<()> {
    println!(rt; " refused {}", r.number())
}

fn read_of(rt: &impl Print, start: u64, length: u64) -> io::Result<()> {
    print!(rt; " read {},", Extent { start, length })
}

fn read_head(rt: &impl Print, s: Span, h: u64) -> io::Result<()> {
    read_of(rt, s.start.0, h)
}

fn read_tail(rt: &impl Print, s: Span, t: u64) -> io::Result<()> {
    read_of(rt, s.end.0.saturating_sub(t), t)
}

// The reads of a padded write, in order.
fn reads(rt: &impl Print, s: Span) -> io::Result<()> {
    match s.reads() {
        Reads::Nothing => Ok(()),
        Reads::Whole => read_head(rt, s, s.length),
        Reads::Head(h) => read_head(rt, s, h),
        Reads::Tail(t) => read_tail(rt, s, t),
        Reads::HeadThenTail(h, t) => {
            read_head(rt, s, h)?;
            read_tail(rt, s, t)
        }
    }
}

fn part(rt: &impl Print, r: Range) -> io::Result<()> {
    if r.start.0 < r.end.0 {
        print!(rt; ", zeroes {}", Extent::from(r))?;
    }
    Ok(())
}

fn split(rt: &impl Print, c: Cut) -> io::Result<()> {
    print!(rt; " zero {}", Extent::from(c.middle))?;
    part(rt, c.head)?;
    part(rt, c.tail)?;
    println!(rt)
}

// A drive, whose jobs are printed.
#[derive(Clone, Copy)]
struct Drive {
    settings: Settings,
}

impl Drive {
    fn write(self, rt: &impl Print, at: u64, length: u64, aligned: bool) -> io::Result<()> {
        print!(rt; "write {length} at {at}:")?;
        match plan_transfer(StoreOffset(at), length, aligned, self.settings.align) {
            Ok(Transfer::Direct(r)) => println!(rt; " write {} (direct)", Extent::from(r)),
            Ok(Transfer::Bounced(s)) => {
                reads(rt, s)?;
                println!(rt; " write {}+{}", s.start.0, s.length)
            }
            Err(r) => refused(rt, r),
        }
    }

    fn zero(self, rt: &impl Print, at: u64, length: u64) -> io::Result<()> {
        print!(rt; "zero {length} at {at}:")?;
        match zero_cut(StoreOffset(at), length, self.settings.align) {
            Ok(ZeroCut::Nothing) => println!(rt; " done"),
            Ok(ZeroCut::Whole(r)) => println!(rt; " zeroes {}", Extent::from(r)),
            Ok(ZeroCut::Split(c)) => split(rt, c),
            Err(r) => refused(rt, r),
        }
    }

    fn discard(self, rt: &impl Print, at: u64, length: u64) -> io::Result<()> {
        print!(rt; "discard {length} at {at}:")?;
        match discard_cut(StoreOffset(at), length, self.settings.align) {
            Ok(None) => println!(rt; " done"),
            Ok(Some(r)) => println!(rt; " discard {}", Extent::from(r)),
            Err(r) => refused(rt, r),
        }
    }

    // What write_full_zeroes writes where the store answers 1: at most `most` chunks are shown.
    fn fallback(self, rt: &impl Print, at: u64, length: u64, most: u64) -> io::Result<()> {
        print!(rt; "zero, told 1, {length} at {at}:")?;
        if let Some(end) = at.checked_add(length) {
            let start = StoreOffset(at);
            let end = StoreOffset(end);
            self.chunks(rt, Range { start, end }, most)?;
        }
        println!(rt)
    }

    fn chunks(self, rt: &impl Print, mut rest: Range, most: u64) -> io::Result<()> {
        for i in 0..most {
            let Ok(Some(r)) = next_chunk(rest, self.settings) else {
                break;
            };
            let comma = if i == 0 { "" } else { "," };
            print!(rt; "{comma} zeroes {}", Extent::from(r))?;
            rest.start = r.end;
        }
        Ok(())
    }
}

// Drive profile 1; every address is a multiple of 1, so a vector is aligned where each length is a multiple of 512.
fn row_one(rt: &impl Print, drive: Drive) -> io::Result<()> {
    drive.write(rt, 100, 10, true)?;
    drive.write(rt, 100, 412, true)?;
    drive.write(rt, 512, 512, true)?;
    drive.write(rt, 512, 512, false)?;
    drive.write(rt, 100, 900, true)?;
    drive.write(rt, 100, 1500, true)?;
    drive.zero(rt, 100, 1000)?;
    drive.fallback(rt, 100, 1000, 4)?;
    drive.zero(rt, 1, 1022)?;
    drive.discard(rt, 100, 400)?;
    drive.discard(rt, 18446744073709551105, 0)?;
    drive.discard(rt, 18446744073709551104, 0)?;
    drive.write(rt, 18446744073709551104, 1, true)?;
    drive.write(rt, 18446744073709551103, 1, true)?;
    drive.write(rt, 18446744073709551615, 1, true)
}

fn main(rt: HostRuntime) -> io::Result<()> {
    println!(rt; "drive profile 1, bounce buffer 4096")?;
    let Ok(one) = drive_profile(1) else {
        return Ok(());
    };
    let settings = Settings {
        align: one,
        bounce: 4096,
    };
    row_one(&rt, Drive { settings })?;
    println!(rt; "drive profile 4, bounce buffer 12288, segment off 4096")?;
    let Ok(four) = drive_profile(4) else {
        return Ok(());
    };
    let settings = Settings {
        align: four,
        bounce: 12288,
    };
    Drive { settings }.write(&rt, 700, 10, false)?;
    println!(rt; "drive profile 6")?;
    let Err(r) = drive_profile(6) else {
        return Ok(());
    };
    refused(&rt, r)
}
