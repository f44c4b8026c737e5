// Two seats of one word of ticks.
use std::test::Fail;
use tick_word::TickWord;

#[test]
fn two_seats_draw_each_tick_once(rt: HostRuntime) -> Result<(), Fail> {
    let (word, mut all) = TickWord::open(rt.alloc(), 2)?;
    let mut one = word.split(&mut all);
    assert_eq!(rt; word.draw(&mut one), 1);
    assert_eq!(rt; word.draw(&mut all), 2);
    assert_eq!(rt; word.draw(&mut one), 3);
    let both = word.join(one, all);
    assert_eq!(rt; word.close(both), 3);
    Ok(())
}
