ghost use Rattle.std.specs.Prelude.{◌<◌, ◌^◌};

use clr_edge::{FetchFault, Shelf};
use clr_host::DirShelf;
use std::alloc::Global;
use std::fs;
use std::rt::Files;
use std::test::Fail;

// 10 bytes
const BANK: &[u8] = b"A,7,order\n";

// Whether a fetch up to a limit gives these bytes.
fn gives<R: Files>(
    alloc: Global,
    shelf: &mut DirShelf<'_, R>,
    limit: u64,
    wanted: &[u8],
) -> Result<bool, FetchFault>
    requires { limit < 2 ^ 32 }
{
    let bytes = shelf.fetch(alloc, "fetched.csv", limit)?;
    Ok(bytes.as_slice() == wanted)
}

#[test]
fn a_file_of_the_folder_is_fetched_up_to_one_byte_past_the_limit(
    rt: HostRuntime,
) -> Result<(), Fail> {
    let mut shelf = DirShelf::new(&rt);
    fs::write(&rt, "fetched.csv", BANK)?;
    let whole = gives(rt.alloc(), &mut shelf, 10, BANK);
    let front = gives(rt.alloc(), &mut shelf, 4, b"A,7,o");
    fs::remove_file(&rt, "fetched.csv")?;
    let gone = gives(rt.alloc(), &mut shelf, 10, BANK);
    assert_eq!(rt;
        (whole?, front?, gone),
        (true, true, Err(FetchFault::Failed))
    );
    Ok(())
}
