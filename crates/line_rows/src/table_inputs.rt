//! Tables of places and latencies, in pieces.

ghost use Rattle.std.specs.Prelude.{◌<◌};

use r53_io::ListSource;
use std::alloc::Global;
use std::test::Fail;
use table_lines::{TablesFault, read_tables};

/// Why an input that is read in pieces of this size gives no tables.
fn fault_of(alloc: Global, input: &[u8], piece: usize) -> Result<Option<TablesFault>, Fail>
    requires { 0 < piece }
{
    let mut source = ListSource::new(alloc, input, piece, &[])?;
    match read_tables(alloc, &mut source) {
        Ok(_) => Ok(None),
        Err(fault) => Ok(Some(fault)),
    }
}

#[test]
fn blank_lines(rt: HostRuntime) -> Result<(), Fail> {
    let rows = [
        (
            b"#\n\ngeo\nlat\n".as_slice(),
            3,
            "an empty line is counted, and of two bad lines the first is told",
        ),
        (b"#\n \n".as_slice(), 2, "a space is no empty line"),
    ];
    for (input, line, row) in rows {
        for piece in [1, 7, 100] {
            assert_eq!(rt;
                fault_of(rt.alloc(), input, piece)?,
                Some(TablesFault::Bad(line)),
                "{row}, {piece}"
            );
        }
    }
    Ok(())
}

/// So many comments of 4,096 bytes, and a bad line behind them.
fn comments(alloc: Global, times: usize) -> Result<Vec<u8>, Fail> {
    let comment = vec![in alloc; b'#'; 4_096]?;
    let mut input = Vec::new(alloc);
    for _ in 0..times {
        input.extend_from_slice(&comment)?;
        input.push(b'\n')?;
    }
    input.extend_from_slice(b"geo\n")?;
    Ok(input)
}

#[test]
fn more_than_the_buffer_holds(rt: HostRuntime) -> Result<(), Fail> {
    let alloc = rt.alloc();
    let input = comments(alloc, 100)?;
    for piece in [1_000, 65_536, 100_000] {
        assert_eq!(rt;
            fault_of(alloc, &input, piece)?,
            Some(TablesFault::Bad(101)),
            "pieces of {piece}"
        );
    }
    Ok(())
}
