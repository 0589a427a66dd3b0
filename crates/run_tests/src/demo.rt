//! The plants of `demo`.

use plant_text::write_plant;
use std::test::Fail;
use synth_run::demo_plant;

/// 60 cells of ten positions by 20 cells of ten in speed: the cart on 600 positions
const CART: &[u8] = b"plant 1
state p 0 599 10
state v -100 99 10
input a -20 -15 0 15 20
noise w -2 2
next p = p + v / 5
next v = v + a + w
target 400 559 -50 49
obstacle 200 219 80 99
obstacle 300 309 -100 -81
goal reach
end
";

#[test]
fn first_demo_plant_is_the_cart(rt: HostRuntime) -> Result<(), Fail> {
    let plant = demo_plant(rt.alloc(), 1)?;
    let mut text = Vec::new(rt.alloc());
    write_plant(rt.alloc(), &plant, &mut text)?;
    assert!(rt; text.as_slice() == CART);
    Ok(())
}
