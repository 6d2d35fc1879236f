//! Runs of a few routers.

use crate::{Node, NodeFault, Policy, Rise};
use std::test::Fail;

#[test]
fn two_routers(rt: HostRuntime) -> Result<(), Fail> {
    let policy = Policy {
        rise: Rise::Full,
        lower: false,
        wait: true,
    };
    let mut gateway = Node::gateway(rt.alloc(), 0, 1);
    let mut router = Node::new(rt.alloc(), 1, 1, 1, policy)?;
    gateway.know(1, 1)?;
    router.know(0, 2)?;
    gateway.link_up(1);
    router.link_up(0);
    assert_eq!(rt; router.say(0), Err(NodeFault::Unwritten));
    gateway.written(1)?;
    router.written(1)?;
    assert!(rt; gateway.has_news(1)?);
    assert!(rt; !router.sends_to(0));
    for _ in 0..2 {
        let up = gateway.say(1)?.ok_or("no message")?;
        router.hear(&up)?;
        router.written(router.state())?;
        let down = router.say(0)?.ok_or("no message")?;
        gateway.hear(&down)?;
        gateway.written(gateway.state())?;
    }
    assert!(rt; router.sends_to(0));
    assert!(rt; gateway.lets_in(1));
    assert_eq!(rt; router.distance(), 2);
    assert_eq!(rt; router.written(1), Err(NodeFault::Outdated));
    Ok(())
}
