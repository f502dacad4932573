//! Readers that find no version.

use snoop_trace::{NoMemory, Shape};
use snoop_versions::VersionWriter;
use std::test::Fail;

#[test]
fn no_version_to_read(rt: HostRuntime) -> Result<(), Fail> {
    let shape = Shape::new(2, 4, 64)?;
    let writer = VersionWriter::new(rt.alloc(), shape, 1)?;
    let Ok(readers) = writer.readers() else {
        writer.end(&rt);
        return Err(Fail::from(NoMemory));
    };
    let mut reader = readers.reader();
    let full = readers.reader().is_none();
    let read = reader.as_mut().map(|reader| reader.value(1, 0));
    writer.end(&rt);
    let ended = reader.as_mut().map(|reader| (reader.value(1, 0), reader.totals(), reader.own(1)));
    if !full {
        return Err(Fail::from("more readers than one"));
    }
    if read != Some(Some(Some(0))) {
        return Err(Fail::from("the value at first"));
    }
    if ended != Some((None, None, None)) {
        return Err(Fail::from("a reading after the end"));
    }
    Ok(())
}
