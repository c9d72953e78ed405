//! Schema files, each beside what it says.

use crate::{SchemaError, SchemaFlaw, read};
use dm_event::Schema;
use std::alloc::{AllocError, Global};
use std::test::Fail;

/// The sites, the width, the weights, the masters of at most four partitions, and the values of the first four keys.
fn schema_text(alloc: Global, schema: &Schema) -> Result<String, AllocError> {
    let weights = schema.weights();
    let mut text = format!(in alloc;
        "{} {} weights {} {} {}",
        schema.sites(),
        schema.width(),
        weights.balance,
        weights.delay,
        weights.together
    )?;
    text.push_str(" masters")?;
    for part in 0..schema.parts().min(4) {
        text.push_str(&format!(in alloc; " {}", schema.opening_master(part))?)?;
    }
    text.push_str(" values")?;
    for key in 0..4 {
        text.push_str(&format!(in alloc; " {}", schema.opening(key))?)?;
    }
    Ok(text)
}

fn flaw_text(alloc: Global, flaw: &SchemaFlaw) -> Result<String, AllocError> {
    match flaw {
        SchemaFlaw::NotToml => String::from_str(alloc, "not toml"),
        SchemaFlaw::Unknown { name } => format!(in alloc; "unknown {}", name.as_str()),
        SchemaFlaw::Missing { name } => format!(in alloc; "missing {}", name.as_str()),
        SchemaFlaw::WrongType { name } => format!(in alloc; "wrong type {}", name.as_str()),
        SchemaFlaw::Range { name } => format!(in alloc; "out of range {}", name.as_str()),
    }
}

fn text(alloc: Global, bytes: &[u8]) -> Result<String, Fail> {
    match read(alloc, bytes) {
        Ok(schema) => Ok(schema_text(alloc, &schema)?),
        Err(SchemaError::Fault { flaw }) => Ok(flaw_text(alloc, &flaw)?),
        Err(SchemaError::Memory) => Err("no memory".into()),
    }
}

/// Files, each beside what it says.
const FILES: &[(&str, &str)] = &[
    (
        "sites = 2\nwidth = 10\nmasters = [1, 2]",
        "2 10 weights 1 1 1 masters 1 2 values 0 0 0 0",
    ),
    (
        "masters = [8,8,1] # c\r\nwidth = 65536\r\n\r\nsites = 8\r\n",
        "8 65536 weights 1 1 1 masters 8 8 1 values 0 0 0 0",
    ),
    (
        "\u{feff}sites = 0x1\nwidth = 1\nmasters = [1]\nweights = []",
        "wrong type weights",
    ),
    // Bytes that are no document, whatever names stand in it.
    ("\0", "not toml"),
    ("sites = 2\0", "not toml"),
    ("sites = 2\nwidth = 10\nsites = 2\n", "not toml"),
    ("sites = 9223372036854775808", "not toml"),
    ("sites = -9223372036854775809", "not toml"),
    ("sites 2", "not toml"),
    // Names: the least unknown one, before all that is wrong with the others.
    (
        "zeta = 1\nsites = 9\nalpha = 2\nbeta.x = 1",
        "unknown alpha",
    ),
    ("\"\\u0000\" = 1\nA = 2", "unknown \0"),
    ("[[value]]\nfrom = 1", "unknown value"),
    ("site = 1\nSites = 3", "unknown Sites"),
    ("sites-x = 1\nsitesx = 2\nsite = 3", "unknown site"),
    ("", "missing sites"),
    ("width = 0\nmasters = 7", "missing sites"),
    ("sites = 1\nmasters = 7", "missing width"),
    ("sites = 1\nwidth = 1\nvalues = 7", "missing masters"),
    // The number of sites, in each form.
    ("sites = 9", "out of range sites"),
    ("sites = 0", "out of range sites"),
    ("sites = -1", "out of range sites"),
    ("sites = 257", "out of range sites"),
    ("sites = 9223372036854775807", "out of range sites"),
    ("sites = -9223372036854775808", "out of range sites"),
    ("sites = 2.0", "wrong type sites"),
    ("sites = inf", "wrong type sites"),
    ("sites = \"2\"", "wrong type sites"),
    ("sites = true", "wrong type sites"),
    ("sites = 1979-05-27", "wrong type sites"),
    ("sites = 1979-05-27T07:32:00Z", "wrong type sites"),
    ("sites = [2]", "wrong type sites"),
    ("[sites.x]", "wrong type sites"),
    ("sites = 1\nwidth = 0", "out of range width"),
    ("sites = 1\nwidth = 65537", "out of range width"),
    // Masters: all types before any range.
    ("sites = 2\nwidth = 1\nmasters = 1", "wrong type masters"),
    ("sites = 2\nwidth = 1\nmasters = []", "out of range masters"),
    (
        "sites = 2\nwidth = 1\nmasters = [1, 3]",
        "out of range masters",
    ),
    (
        "sites = 2\nwidth = 1\nmasters = [0]",
        "out of range masters",
    ),
    (
        "sites = 2\nwidth = 1\nmasters = [3, 1.0]",
        "wrong type masters",
    ),
    (
        "sites = 2\nwidth = 1\nmasters = [[1]]",
        "wrong type masters",
    ),
];

// What stands in front of the lines of a row, for 20 keys.
const FRONT: &str = "sites = 2\nwidth = 10\nmasters = [1, 2]\n";

/// Weights and values, each beside what they say.
const LINES: &[(&str, &str)] = &[
    (
        "weights = [0, 1000, 7]",
        "2 10 weights 0 1000 7 masters 1 2 values 0 0 0 0",
    ),
    ("weights = [1, 1]", "wrong type weights"),
    ("weights = [1, 1, 1, 1]", "wrong type weights"),
    ("weights = [1, 1, 1001]", "out of range weights"),
    ("weights = [-1, 1, 1]", "out of range weights"),
    ("weights = [1001, 1, 1.5]", "wrong type weights"),
    ("weights = 1\nvalues = 1", "wrong type weights"),
    // A later range wins, and both ends of one count.
    (
        "values = [{from = 0, to = 2, value = 5}, {value = -7, to = 1, from = 1}]",
        "2 10 weights 1 1 1 masters 1 2 values 5 -7 5 0",
    ),
    (
        "[[values]]\nfrom = 1\nto = 19\nvalue = 4",
        "2 10 weights 1 1 1 masters 1 2 values 0 4 4 4",
    ),
    (
        "values = []",
        "2 10 weights 1 1 1 masters 1 2 values 0 0 0 0",
    ),
    (
        "values = [{from = 0, to = 0, value = 9223372036854775807}, {from = 1, to = 1, value = -9223372036854775808}]",
        "2 10 weights 1 1 1 masters 1 2 values 9223372036854775807 -9223372036854775808 0 0",
    ),
    ("[values]\nfrom = 1\nto = 1\nvalue = 4", "wrong type values"),
    ("values = [1]", "wrong type values"),
    ("values = [{from = 0, to = 2}]", "wrong type values"),
    (
        "values = [{from = 0, to = 2, value = 1, when = 3}]",
        "wrong type values",
    ),
    (
        "values = [{from = 0, to = 2, value = {}}]",
        "wrong type values",
    ),
    (
        "values = [{from = 0, to = 2, value = 1.0}]",
        "wrong type values",
    ),
    (
        "values = [{from = 3, to = 2, value = 1}]",
        "out of range values",
    ),
    (
        "values = [{from = -1, to = 2, value = 1}]",
        "out of range values",
    ),
    (
        "values = [{from = 0, to = 20, value = 1}]",
        "out of range values",
    ),
    (
        "values = [{from = 3, to = 4294967299, value = 1}]",
        "out of range values",
    ),
    (
        "values = [{from = 3, to = 2, value = 1}, {from = 0}]",
        "wrong type values",
    ),
];

/// What a file of 20 keys says with this line.
fn text_with(alloc: Global, line: &str) -> Result<String, Fail> {
    let file = format!(in alloc; "{FRONT}{line}")?;
    text(alloc, file.as_bytes())
}

/// A file of one site with so many partitions and so many ranges of values.
fn long_file(alloc: Global, parts: u32, ranges: u32) -> Result<String, AllocError> {
    let mut file = String::from_str(alloc, "sites = 1\nwidth = 3\nmasters = [")?;
    for _ in 0..parts {
        file.push_str("1,")?;
    }
    file.push_str("]\nvalues = [")?;
    for _ in 0..ranges {
        file.push_str("{from=0,to=1,value=3},")?;
    }
    file.push_str("]")?;
    Ok(file)
}

fn text_of_long(alloc: Global, parts: u32, ranges: u32) -> Result<String, Fail> {
    let file = long_file(alloc, parts, ranges)?;
    text(alloc, file.as_bytes())
}

#[test]
fn files_say_schemas_or_their_first_flaws(rt: HostRuntime) -> Result<(), Fail> {
    let alloc = rt.alloc();
    for (file, want) in FILES {
        assert_eq!(rt; text(alloc, file.as_bytes())?.as_str(), *want);
    }
    // Bytes that aren't UTF-8, whatever names stand beside them.
    for bytes in [b"sites = \"\xff\"".as_slice(), b"zeta = 1 # \xff"] {
        assert_eq!(rt; text(alloc, bytes)?.as_str(), "not toml");
    }
    for (line, want) in LINES {
        assert_eq!(rt; text_with(alloc, line)?.as_str(), *want);
    }
    for (parts, ranges, want) in [
        (
            256,
            4096,
            "1 3 weights 1 1 1 masters 1 1 1 1 values 3 3 0 0",
        ),
        (257, 4097, "out of range masters"),
        (256, 4097, "out of range values"),
    ] {
        assert_eq!(rt; text_of_long(alloc, parts, ranges)?.as_str(), want);
    }
    Ok(())
}
