// Whose complement is marked as empty in every legal state.
use std::alloc::Global;
use std::test::Fail;
use wh_base::NoMemory;
use wh_lossless::always_empty;
use wh_schema::Spec;
use wh_spec_text::parse_spec;

const SHOP: &[u8] = b"relation Emp(clerk text, age text) key (clerk);
relation Sale(item text, clerk text) key (item, clerk);
inclusion Sale(clerk) in Emp(clerk);
view Sold = Sale join Emp;
";

fn sales_alone_are_marked(alloc: Global, spec: &Spec) -> Result<bool, NoMemory> {
    Ok(always_empty(alloc, spec, 1)? && !always_empty(alloc, spec, 0)?)
}

fn is_told(alloc: Global) -> Result<bool, NoMemory> {
    match parse_spec(alloc, SHOP) {
        Ok(spec) => sales_alone_are_marked(alloc, &spec),
        Err(_) => Ok(false),
    }
}

#[test]
fn sales_are_kept(rt: HostRuntime) -> Result<(), Fail> {
    assert!(rt; is_told(rt.alloc())?);
    Ok(())
}
