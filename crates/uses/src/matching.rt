//! A use of `nm_match`: receives are posted, messages arrive, and the answers tell which receive took
//! which message.

mod taking;

use nm_match::Matcher;
use std::test::Fail;
use taking::{first_three, late};

pub fn show(rt: &HostRuntime) -> Result<(), Fail> {
    let mut matcher = Matcher::new(rt.alloc());
    let [one, two, three] = first_three(&mut matcher)?;
    println!(rt; "arrivals: {:?} {:?} {:?}", one, two, three)?;
    println!(rt; "late receive: {:?}", late(&mut matcher)?)?;
    Ok(())
}
