//! Texts that are read as reports, and words that are read as fields.

use net_types::{List, Names, NoMemory, Section, Text};
use report_text::{ReportFail, are_names, read_field, read_report};
use std::alloc::Global;
use test_stop::Stop;

pub(crate) fn show(rt: &HostRuntime) -> Result<(), Stop> {
    let names = names_of(rt.alloc(), &["Ethernet0", "Ethernet1", "R1", "R2", "src"])?;
    show_reports(rt, &names)?;
    show_fields(rt)?;
    show_names(rt)
}

fn names_of(alloc: Global, words: &[&str]) -> Result<Names, NoMemory> {
    let mut texts = Vec::new(alloc);
    for word in words {
        texts.push(Text::copy_of(alloc, word.as_bytes())?)?;
    }
    Ok(Names {
        texts: List::new(texts),
    })
}

/// Texts of reports, each with what it is.
const REPORTS: [(&str, &str); 27] = [
    (
        "two routers",
        "ingress R1 Ethernet0 rows 1\ndst 000010100000100100000000000000*0 src 10.0.0.5 proto * dport * sport * flags *\nold exit R2 Ethernet1\nnew exit R2 Ethernet1 src 203.0.113.5\naffected 1\n",
    ),
    ("no section", "affected 0\n"),
    (
        "a section without rows",
        "ingress R1 Ethernet0 rows 0\naffected 0\n",
    ),
    (
        "without the last line",
        "ingress R1 Ethernet0 rows 1\ndst 000010100000100100000000000000*0 src 10.0.0.5 proto * dport * sport * flags *\nold exit R2 Ethernet1\nnew exit R2 Ethernet1 src 203.0.113.5\n",
    ),
    (
        "without the last line end",
        "ingress R1 Ethernet0 rows 1\ndst 000010100000100100000000000000*0 src 10.0.0.5 proto * dport * sport * flags *\nold exit R2 Ethernet1\nnew exit R2 Ethernet1 src 203.0.113.5\naffected 1",
    ),
    ("nothing", ""),
    (
        "bytes behind the last line",
        "ingress R1 Ethernet0 rows 1\ndst 000010100000100100000000000000*0 src 10.0.0.5 proto * dport * sport * flags *\nold exit R2 Ethernet1\nnew exit R2 Ethernet1 src 203.0.113.5\naffected 1\n\n",
    ),
    (
        "a wrong count of rows",
        "ingress R1 Ethernet0 rows 2\ndst 000010100000100100000000000000*0 src 10.0.0.5 proto * dport * sport * flags *\nold exit R2 Ethernet1\nnew exit R2 Ethernet1 src 203.0.113.5\naffected 1\n",
    ),
    (
        "a wrong sum",
        "ingress R1 Ethernet0 rows 1\ndst 000010100000100100000000000000*0 src 10.0.0.5 proto * dport * sport * flags *\nold exit R2 Ethernet1\nnew exit R2 Ethernet1 src 203.0.113.5\naffected 2\n",
    ),
    (
        "a zero in front of a count",
        "ingress R1 Ethernet0 rows 01\ndst 000010100000100100000000000000*0 src 10.0.0.5 proto * dport * sport * flags *\nold exit R2 Ethernet1\nnew exit R2 Ethernet1 src 203.0.113.5\naffected 1\n",
    ),
    (
        "a zero in front of an octet",
        "ingress R1 Ethernet0 rows 1\ndst 000010100000100100000000000000*0 src 010.0.0.5 proto * dport * sport * flags *\nold exit R2 Ethernet1\nnew exit R2 Ethernet1 src 203.0.113.5\naffected 1\n",
    ),
    (
        "a carriage return",
        "ingress R1 Ethernet0 rows 1\ndst 000010100000100100000000000000*0 src 10.0.0.5 proto * dport * sport * flags *\nold exit R2 Ethernet1\r\nnew exit R2 Ethernet1 src 203.0.113.5\naffected 1\n",
    ),
    (
        "two blanks",
        "ingress R1 Ethernet0 rows 1\ndst 000010100000100100000000000000*0 src 10.0.0.5 proto * dport * sport * flags *\nold  exit R2 Ethernet1\nnew exit R2 Ethernet1 src 203.0.113.5\naffected 1\n",
    ),
    (
        "a blank at the end of a line",
        "ingress R1 Ethernet0 rows 1\ndst 000010100000100100000000000000*0 src 10.0.0.5 proto * dport * sport * flags *\nold exit R2 Ethernet1 \nnew exit R2 Ethernet1 src 203.0.113.5\naffected 1\n",
    ),
    (
        "the lines of a row in another order",
        "ingress R1 Ethernet0 rows 1\ndst 000010100000100100000000000000*0 src 10.0.0.5 proto * dport * sport * flags *\nnew exit R2 Ethernet1 src 203.0.113.5\nold exit R2 Ethernet1\naffected 1\n",
    ),
    (
        "a section twice",
        "ingress R1 Ethernet0 rows 1\ndst 000010100000100100000000000000*0 src 10.0.0.5 proto * dport * sport * flags *\nold exit R2 Ethernet1\nnew exit R2 Ethernet1 src 203.0.113.5\ningress R1 Ethernet0 rows 1\ndst 000010100000100100000000000000*0 src 10.0.0.5 proto * dport * sport * flags *\nold exit R2 Ethernet1\nnew exit R2 Ethernet1 src 203.0.113.5\naffected 1\n",
    ),
    (
        "a section twice with its sum",
        "ingress R1 Ethernet0 rows 1\ndst 000010100000100100000000000000*0 src 10.0.0.5 proto * dport * sport * flags *\nold exit R2 Ethernet1\nnew exit R2 Ethernet1 src 203.0.113.5\ningress R1 Ethernet0 rows 1\ndst 000010100000100100000000000000*0 src 10.0.0.5 proto * dport * sport * flags *\nold exit R2 Ethernet1\nnew exit R2 Ethernet1 src 203.0.113.5\naffected 2\n",
    ),
    (
        "a name that isn't there",
        "ingress R1 Ethernet0 rows 1\ndst 000010100000100100000000000000*0 src 10.0.0.5 proto * dport * sport * flags *\nold exit R3 Ethernet1\nnew exit R2 Ethernet1 src 203.0.113.5\naffected 1\n",
    ),
    (
        "each kind of outcome",
        "ingress R1 Ethernet0 rows 1\ndst * src * proto 6 dport 80 sport * flags ***0*1**\nold drop | expired | local R1 Ethernet0 | exit R2 src src 10.0.0.1 dst 10.0.0.2 sport 1 dport 65535\nnew local R1 Ethernet1\naffected 1\n",
    ),
    (
        "outcomes in another order",
        "ingress R1 Ethernet0 rows 1\ndst * src * proto 6 dport 80 sport * flags *\nold expired | drop\nnew drop\naffected 1\n",
    ),
    (
        "an outcome twice",
        "ingress R1 Ethernet0 rows 1\ndst * src * proto 6 dport 80 sport * flags *\nold drop | drop\nnew expired\naffected 1\n",
    ),
    (
        "changes in another order",
        "ingress R1 Ethernet0 rows 1\ndst 000010100000100100000000000000*0 src 10.0.0.5 proto * dport * sport * flags *\nold exit R2 Ethernet1\nnew exit R2 Ethernet1 sport 1 src 203.0.113.5\naffected 1\n",
    ),
    (
        "a port that is too great",
        "ingress R1 Ethernet0 rows 1\ndst 000010100000100100000000000000*0 src 10.0.0.5 proto * dport * sport * flags *\nold exit R2 Ethernet1\nnew exit R2 Ethernet1 sport 65536\naffected 1\n",
    ),
    (
        "a label without outcomes",
        "ingress R1 Ethernet0 rows 1\ndst 000010100000100100000000000000*0 src 10.0.0.5 proto * dport * sport * flags *\nold \nnew exit R2 Ethernet1 src 203.0.113.5\naffected 1\n",
    ),
    (
        "a prefix with bits behind it",
        "ingress R1 Ethernet0 rows 1\ndst 10.0.0.1/24 src 10.0.0.5 proto * dport * sport * flags *\nold exit R2 Ethernet1\nnew exit R2 Ethernet1 src 203.0.113.5\naffected 1\n",
    ),
    (
        "a prefix in ternary digits",
        "ingress R1 Ethernet0 rows 1\ndst 0000101000000000000000000000000* src 10.0.0.5 proto * dport * sport * flags *\nold exit R2 Ethernet1\nnew exit R2 Ethernet1 src 203.0.113.5\naffected 1\n",
    ),
    (
        "two rows",
        "ingress R1 Ethernet0 rows 2\ndst 000010100000100100000000000000*0 src 10.0.0.5 proto * dport * sport * flags *\nold exit R2 Ethernet1\nnew exit R2 Ethernet1 src 203.0.113.5\ndst 10.0.0.0/8 src * proto * dport * sport * flags *\nold drop\nnew expired\naffected 2\n",
    ),
];

/// Prints for each text the rows of its sections, or that it is no report.
fn show_reports(rt: &HostRuntime, names: &Names) -> Result<(), Stop> {
    for (case, text) in REPORTS {
        print!(rt; "{case}: ")?;
        show_report(rt, names, text.as_bytes())?;
    }
    Ok(())
}

fn show_report(rt: &HostRuntime, names: &Names, bytes: &[u8]) -> Result<(), Stop> {
    if !are_names(names) {
        println!(rt; "no names")?;
        return Ok(());
    }
    match read_report(rt.alloc(), names, bytes) {
        Ok(sections) => show_sections(rt, &sections),
        Err(ReportFail::NotReport) => Ok(println!(rt; "no report")?),
        Err(ReportFail::NoMemory) => Err(Stop::NoMemory),
    }
}

/// How many rows each section has.
fn show_sections(rt: &HostRuntime, sections: &[Section]) -> Result<(), Stop> {
    print!(rt; "rows of sections")?;
    for section in sections {
        print!(rt; " {}", section.rows.as_slice().len())?;
    }
    println!(rt; "")?;
    Ok(())
}

/// Words, each with the number of a field.
const FIELDS: [(&str, u8); 32] = [
    ("10.0.1.0/24", 0),
    ("2*", 3),
    ("*", 0),
    ("*", 5),
    ("10.0.0.1", 1),
    ("255.255.255.255", 0),
    ("10.0.0.1/24", 0),
    ("10.0.0.0/32", 0),
    ("0.0.0.0/0", 0),
    ("010.0.0.1", 0),
    ("10.0.0", 0),
    ("10.0.0.1.", 0),
    ("256.0.0.0", 0),
    ("10.0.0.0/08", 0),
    ("0000101000001001000000000000000*", 0),
    ("000010100000100100000000000000*0", 0),
    ("6", 2),
    ("06", 2),
    ("256", 2),
    ("80", 3),
    ("080", 3),
    ("65535", 4),
    ("65536", 4),
    ("***0*1**", 5),
    ("00000010", 5),
    ("********", 5),
    ("***0*1*", 5),
    ("***0*2**", 5),
    ("", 0),
    ("", 2),
    ("6", 6),
    ("*", 255),
];

/// Prints for each word the field as which it is read.
fn show_fields(rt: &HostRuntime) -> Result<(), Stop> {
    for (word, field) in FIELDS {
        match read_field(word.as_bytes(), field) {
            Some((fixed, bits)) => println!(rt; "field {field} {word}: {fixed} {bits}")?,
            None => println!(rt; "field {field} {word}: none")?,
        }
    }
    Ok(())
}

/// Names in order, out of order, twice, with a blank, and without a byte.
fn show_names(rt: &HostRuntime) -> Result<(), Stop> {
    let cases: [&[&str]; 6] = [&[], &["A", "B"], &["B", "A"], &["A", "A"], &["A B"], &[""]];
    for words in cases {
        let names = names_of(rt.alloc(), words)?;
        println!(rt; "names {words:?}: {}", are_names(&names))?;
    }
    Ok(())
}
