//! Lists of parts.

use cts_list::Items;
use std::test::Fail;

#[test]
fn a_list_lends_what_it_was_given(rt: HostRuntime) -> Result<(), Fail> {
    let list = Items::of(vec![in rt.alloc(); 35u64, 61, 24]?);
    assert_eq!(rt; list.items(), [35, 61, 24].as_slice());
    Ok(())
}
