//! A request that is added and freed.

ghost use Rattle.std.specs.Prelude.{◌≡◌};

use nm_request::{Kind, NoSuch, Requests};
use std::process::Abort;
use std::test::Fail;

fn add_and_free(rt: &impl Abort, requests: &mut Requests) -> Result<(), Fail>
    requires { requests.old.added ≡ 0 }
{
    let kind = Kind::Receive { number: 3 };
    requests.reserve()?;
    let added = requests.add(kind)?;
    assert_eq!(rt; requests.get(added), Ok(kind));
    assert_eq!(rt; requests.free(added), Ok(kind));
    assert_eq!(rt; requests.get(added), Err(NoSuch));
    Ok(())
}

#[test]
fn a_freed_request_is_unknown(rt: HostRuntime) -> Result<(), Fail> {
    let mut requests = Requests::new(rt.alloc());
    add_and_free(&rt, &mut requests)
}
