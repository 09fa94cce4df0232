use particle_file::{PartFault, bodies, of_bodies, print, read};
use pf_geom::Point;
use pf_model::Body;
use std::alloc::{AllocError, Global};
use std::process::Abort;
use std::test::Fail;

/// Two particles at rest, of mass 1.
const TWO: &str = "particles 1\ncount 2\n1 0 0 0 0 0 0 1 0 0 0 0\n2 3 4 0 0 0 0 1 0 0 0 0\n";

#[test]
fn two_particles_are_read(rt: HostRuntime) -> Result<(), Fail> {
    let particles = read(rt.alloc(), TWO.as_bytes())?;
    let shown = format!(in rt.alloc(); "{:?}", bodies(&particles))?;
    assert_eq!(rt;
        shown.as_str(),
        "[Body { id: 1, at: Point { x: 0, y: 0, z: 0 }, vel: [0, 0, 0], mass: 1, attr: [0, 0, 0, 0, 0, 0, 0, 0] }, \
         Body { id: 2, at: Point { x: 3, y: 4, z: 0 }, vel: [0, 0, 0], mass: 1, attr: [0, 0, 0, 0, 0, 0, 0, 0] }]"
    );
    Ok(())
}

// The canonical text of the particles that are read.
fn are_printed(rt: &impl Abort, alloc: Global, cases: &[(&str, &str)]) -> Result<(), Fail> {
    for (text, wanted) in cases {
        assert!(rt; text.len() <= 1 << 24);
        let particles = read(alloc, text.as_bytes())?;
        assert_eq!(rt;
            print(alloc, &particles)?.as_slice(),
            wanted.as_bytes(),
            "of {text}"
        );
    }
    Ok(())
}

const PRINTED: [(&str, &str); 2] = [
    (
        "particles\t1\r\ncount\t2\r\n1\t0\t0\t0\t0\t0\t0\t1\t0\t0\t0\t0\r\n\
         2\t3\t4\t0\t0\t0\t0\t1\t0\t0\t0\t0\r\n",
        TWO,
    ),
    (
        "# a fast particle\nparticles 1\n\n  count 0001\n\
         4294967295 007 -0 1073741823 -140737488355328 140737488355328 0 2147483647 -1 2 -03 1099511627776",
        "particles 1\ncount 1\n\
         4294967295 7 0 1073741823 -140737488355328 140737488355328 0 2147483647 -1 2 -3 1099511627776\n",
    ),
];

#[test]
fn blanks_are_read_and_numbers_printed_in_canonical_decimals(rt: HostRuntime) -> Result<(), Fail> {
    are_printed(&rt, rt.alloc(), &PRINTED)
}

// The fault of a text, if it has one.
fn fault_of(rt: &impl Abort, alloc: Global, text: &[u8]) -> Option<PartFault> {
    assert!(rt; text.len() <= 1 << 24);
    read(alloc, text).err()
}

fn have_faults(rt: &impl Abort, alloc: Global, cases: &[(&str, PartFault)]) {
    for (text, fault) in cases {
        let found = fault_of(rt, alloc, text.as_bytes());
        assert_eq!(rt; found, Some(*fault), "of {text}");
    }
}

const HEADS: [(&str, PartFault); 12] = [
    ("", PartFault::Header),
    ("# nothing\n \t\n", PartFault::Header),
    ("particles 3\n", PartFault::Header),
    ("particles 1 1\ncount 0\n", PartFault::Header),
    ("FDPSPART", PartFault::Header),
    ("particles 1\n", PartFault::Count),
    ("particles 1\ncount x\n", PartFault::Count),
    ("particles 1\ncount -1\n", PartFault::Count),
    ("particles 1\ncount 1 1\n", PartFault::Count),
    ("particles 1\ncount 0\r\r\n", PartFault::Count),
    ("particles 1\ncount 65537\n", PartFault::TooMany),
    (
        "particles 1\ncount 99999999999999999999999999999999999999999\n",
        PartFault::TooMany,
    ),
];

#[test]
fn the_first_two_lines_have_their_faults(rt: HostRuntime) {
    have_faults(&rt, rt.alloc(), &HEADS);
}

const LINES: [(&str, PartFault); 18] = [
    ("particles 1\ncount 1\n1 0 0\n", PartFault::Field(3, 4)),
    (
        "particles 1\ncount 1\n1 0 0 0 0 0 +1 1 0 0 0 0\n",
        PartFault::Field(3, 7),
    ),
    (
        "particles 1\ncount 1\n1 0 0 0 0 0 - 1 0 0 0 0\n",
        PartFault::Field(3, 7),
    ),
    (
        "particles 1\ncount 1\n1 0 0 0 0 0 0 1 0 0 0 0 0\n",
        PartFault::Field(3, 13),
    ),
    // a line that is cut lacks its next column
    (
        "particles 1\ncount 2\n1 0 0 0 0 0 0 1 0 0 0 0\n2 3 4 0 0 0 0",
        PartFault::Field(4, 8),
    ),
    (
        "particles 1\ncount 1\n1 1073741824 0 0 0 0 0 1 0 0 0 0\n",
        PartFault::Range(3, 2),
    ),
    (
        "particles 1\ncount 1\n1 1073741824 x 0 0 0 0 1 0 0 0 0\n",
        PartFault::Range(3, 2),
    ),
    (
        "particles 1\ncount 1\n4294967296 0 0 0 0 0 0 1 0 0 0 0\n",
        PartFault::Range(3, 1),
    ),
    (
        "particles 1\ncount 1\n-1 0 0 0 0 0 0 1 0 0 0 0\n",
        PartFault::Range(3, 1),
    ),
    (
        "particles 1\ncount 1\n1 0 0 0 0 0 0 0 0 0 0 0\n",
        PartFault::Range(3, 8),
    ),
    (
        "# three lines\n\nparticles 1\n \t# more\r\ncount 1\n#\n1 0 0 0 0 0 0 0 0 0 0 0\n",
        PartFault::Range(7, 8),
    ),
    (
        "particles 1\ncount 2\n1 0 0 0 0 0 0 1 0 0 0 0\n",
        PartFault::Short(4),
    ),
    (
        "particles 1\ncount 2\n1 0 0 0 0 0 0 1 0 0 0 0\n# no more\n\n",
        PartFault::Short(6),
    ),
    (
        "particles 1\ncount 0\n1 0 0 0 0 0 0 1 0 0 0 0\n",
        PartFault::Trailing(3),
    ),
    ("particles 1\ncount 0\n# none\nx", PartFault::Trailing(4)),
    (
        "particles 1\ncount 2\n1 0 0 0 0 0 0 1 0 0 0 0\n1 5 5 5 0 0 0 1 0 0 0 0\n",
        PartFault::DuplicateId(4),
    ),
    (
        "particles 1\ncount 3\n7 0 0 0 0 0 0 1 0 0 0 0\n1 0 0 0 0 0 0 1 0 0 0 0\n\
         07 0 0 0 0 0 0 1 0 0 0 0\nx\n",
        PartFault::DuplicateId(5),
    ),
    (
        "particles 1\ncount 2\n1 0 0 0 0 0 0 1 0 0 0 0\n1 0 0 0 0 0 0 1 0 0 0 0 0\n",
        PartFault::Field(4, 13),
    ),
];

#[test]
fn the_first_fault_of_the_particles_is_told(rt: HostRuntime) {
    have_faults(&rt, rt.alloc(), &LINES);
}

// Of the fronts of the text the one without its last byte alone is read.
fn lacks_only_its_end(rt: &impl Abort, alloc: Global, text: &[u8]) {
    for n in 0..text.len() {
        let is_whole = fault_of(rt, alloc, &text[..n]).is_none();
        assert_eq!(rt; is_whole, n + 1 == text.len(), "{n} bytes");
    }
}

#[test]
fn only_the_last_line_feed_may_be_missing(rt: HostRuntime) {
    lacks_only_its_end(&rt, rt.alloc(), TWO.as_bytes());
}

/// Each column from the second on: its number from 1, its least number and its greatest.
const COLUMNS: [(u32, i64, i64); 11] = [
    (2, 0, 1_073_741_823),
    (3, 0, 1_073_741_823),
    (4, 0, 1_073_741_823),
    (5, -140_737_488_355_328, 140_737_488_355_328),
    (6, -140_737_488_355_328, 140_737_488_355_328),
    (7, -140_737_488_355_328, 140_737_488_355_328),
    (8, 1, 2_147_483_647),
    (9, -1_099_511_627_776, 1_099_511_627_776),
    (10, -1_099_511_627_776, 1_099_511_627_776),
    (11, -1_099_511_627_776, 1_099_511_627_776),
    (12, -1_099_511_627_776, 1_099_511_627_776),
];

// The number in this column, where a particle at rest of id 1 and mass 1 has its own in the others.
fn number_at(k: u32, column: u32, number: i64) -> i64 {
    if k == column {
        number
    } else {
        i64::from(k == 1 || k == 8)
    }
}

// The fault of a particle of id 1 at rest, but for this number in this column.
fn fault_with(
    rt: &impl Abort,
    alloc: Global,
    column: u32,
    number: i64,
) -> Result<Option<PartFault>, Fail> {
    let mut text = String::from_str(alloc, "particles 1\ncount 1\n")?;
    for k in 1..13 {
        write!(text, " {}", number_at(k, column, number))?;
    }
    Ok(fault_of(rt, alloc, text.as_bytes()))
}

fn end_there(rt: &impl Abort, alloc: Global, columns: &[(u32, i64, i64)]) -> Result<(), Fail> {
    for (column, least, most) in columns {
        let past = Some(PartFault::Range(3, *column));
        assert_eq!(rt;
            fault_with(rt, alloc, *column, *least)?,
            None,
            "least of {column}"
        );
        assert_eq!(rt;
            fault_with(rt, alloc, *column, *most)?,
            None,
            "most of {column}"
        );
        assert_eq!(rt;
            fault_with(rt, alloc, *column, least.wrapping_sub(1))?,
            past,
            "of {column}"
        );
        assert_eq!(rt;
            fault_with(rt, alloc, *column, most.wrapping_add(1))?,
            past,
            "of {column}"
        );
    }
    Ok(())
}

#[test]
fn each_column_ends_at_its_limits(rt: HostRuntime) -> Result<(), Fail> {
    end_there(&rt, rt.alloc(), &COLUMNS)
}

// As many particles as there may be, at rest at the origin.
fn most_particles(alloc: Global) -> Result<String, Fail> {
    let mut text = String::from_str(alloc, "particles 1\ncount 65536\n")?;
    for id in 0..65_536_u32 {
        writeln!(text, "{id} 0 0 0 0 0 0 1 0 0 0 0")?;
    }
    Ok(text)
}

#[test]
fn as_many_particles_as_there_may_be_are_read(rt: HostRuntime) -> Result<(), Fail> {
    let mut text = most_particles(rt.alloc())?;
    assert_eq!(rt; fault_of(&rt, rt.alloc(), text.as_bytes()), None);
    text.push_str("# and no more\n0 0 0 0 0 0 0 1 0 0 0 0\n")?;
    assert_eq!(rt;
        fault_of(&rt, rt.alloc(), text.as_bytes()),
        Some(PartFault::Trailing(65_540))
    );
    Ok(())
}

// A particle at rest, of mass 1.
fn at_rest(id: u32) -> Body {
    Body {
        id,
        at: Point { x: 1, y: 2, z: 3 },
        vel: [0; 3],
        mass: 1,
        attr: [0; 8],
    }
}

#[test]
fn a_list_of_bodies_keeps_its_order(rt: HostRuntime) -> Result<(), Fail> {
    let list = [at_rest(5), at_rest(9), at_rest(2)];
    let particles = of_bodies(list.to_vec(rt.alloc())?).ok_or("three ids")?;
    assert_eq!(rt; bodies(&particles), list.as_slice());
    Ok(())
}

#[test]
fn bodies_of_one_id_are_no_particles(rt: HostRuntime) -> Result<(), Fail> {
    let list = [at_rest(5), at_rest(9), at_rest(5)];
    assert!(rt; of_bodies(list.to_vec(rt.alloc())?).is_none());
    Ok(())
}

// Whether so many bodies of different ids are particles.
fn fit(alloc: Global, count: u32) -> Result<bool, AllocError> {
    let mut list = Vec::new(alloc);
    for id in 0..count {
        list.push(at_rest(id))?;
    }
    Ok(of_bodies(list).is_some())
}

#[test]
fn there_are_at_most_65536_bodies(rt: HostRuntime) -> Result<(), Fail> {
    assert!(rt; fit(rt.alloc(), 65_536)?);
    assert!(rt; !fit(rt.alloc(), 65_537)?);
    Ok(())
}

const SHOWN: [(PartFault, &str); 8] = [
    (PartFault::Header, "Header"),
    (PartFault::Count, "Count"),
    (PartFault::TooMany, "TooMany"),
    (PartFault::Field(4, 8), "Field line 4 column 8"),
    (PartFault::Range(3, 2), "Range line 3 column 2"),
    (PartFault::Short(4), "Short line 4"),
    (PartFault::Trailing(3), "Trailing line 3"),
    (PartFault::DuplicateId(4), "DuplicateId line 4"),
];

fn are_shown(rt: &impl Abort, alloc: Global, cases: &[(PartFault, &str)]) -> Result<(), Fail> {
    for (fault, wanted) in cases {
        assert_eq!(rt; format!(in alloc; "{fault}")?.as_str(), *wanted);
    }
    Ok(())
}

#[test]
fn faults_are_shown_by_name_and_place(rt: HostRuntime) -> Result<(), Fail> {
    are_shown(&rt, rt.alloc(), &SHOWN)
}
