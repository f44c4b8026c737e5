// The events of the lent node and the lent master record, made of these themselves.
ghost use Rattle.std.specs.Prelude.{◌≡◌, ◌≤◌, ◌^◌, IfSome};
ghost use Rattle.stamp_base.specs.Setups.{numbers_of};
ghost use Rattle.machine.specs.Events.Extend.{extend_on};
ghost use Rattle.machine.specs.Events.Renew.{renew_on};
ghost use Rattle.machine.specs.Events.Take.{rules_of, take_on};
ghost use Rattle.event_parts.specs.Made.{Makes};
ghost use Rattle.cluster_core.specs.Required.{CanMake, Covers};
ghost use Rattle.split_parts.specs.Direct.{HasAll, lent_effect, MakesOfRecord};
ghost use Rattle.split_parts.specs.Parts.{LeasesBySetup, behind, filled, master_of, node_of, seen};

use crate::Lent;
use crate::parts::{MasterPart, NodePart};
use event_parts::Stopped;
use history_book::Book;
use machine::Event;
use master_record::Master;
use port_io::OneFate;
use stamp_base::{NodeNo, Setup};
use std::alloc::Global;
use takeover_core::Post;

fn take_to(
    alloc: Global,
    weather: &mut OneFate,
    book: &mut Book,
    setup: &Setup,
    post: &mut Option<&mut NodePart>,
    master: &mut Option<&mut MasterPart>,
    node: NodeNo,
    reading: u64,
) -> Result<(), Stopped>
    requires reading { reading ≤ 2 ^ 61 }
    requires rules { IfSome (behind master_of master.old) (λ kept. kept.rules ≡ rules_of (numbers_of setup.now)) }
    ensures { MakesOfRecord (λ i state. take_on (numbers_of setup.now) node reading weather.old.fate i state) (behind node_of post.old) (behind master_of master.old) (behind node_of post.new) (behind master_of master.new) book.old.items book.new.items result }
{
    match (post, master) {
        (Some(place), Some(kept)) => {
            let at = &mut **place;
            let kept = &mut **kept;
            node_events::take(
                weather,
                book,
                alloc,
                setup,
                &mut at.post,
                &mut kept.master,
                node,
                reading,
            )
        }
        _ => Ok(()),
    }
}

/// The renewal, where the record leases by this setup.
fn renew_kept(
    weather: &mut OneFate,
    book: &mut Book,
    setup: &Setup,
    post: &mut Post,
    master: &mut Master,
    node: NodeNo,
    reading: u64,
) -> Result<(), Stopped>
    requires reading { reading ≤ 2 ^ 61 }
    requires rules { master.old.rules ≡ rules_of (numbers_of setup.now) }
    ensures made { Makes (renew_on (numbers_of setup.now) node reading weather.old.fate post.old master.old.state)
        (post.old, master.old.state) (post.new, master.new.state) book.old.items book.new.items result }
    ensures rules { master.new.rules ≡ master.old.rules }
{
    node_events::renew(weather, book, post, master, node, reading)
}

fn renew_to(
    weather: &mut OneFate,
    book: &mut Book,
    setup: &Setup,
    post: &mut Option<&mut NodePart>,
    master: &mut Option<&mut MasterPart>,
    node: NodeNo,
    reading: u64,
) -> Result<(), Stopped>
    requires reading { reading ≤ 2 ^ 61 }
    requires rules { IfSome (behind master_of master.old) (λ kept. kept.rules ≡ rules_of (numbers_of setup.now)) }
    ensures { MakesOfRecord (λ i state. renew_on (numbers_of setup.now) node reading weather.old.fate i state) (behind node_of post.old) (behind master_of master.old) (behind node_of post.new) (behind master_of master.new) book.old.items book.new.items result }
{
    match (post, master) {
        (Some(place), Some(kept)) => {
            let at = &mut **place;
            let kept = &mut **kept;
            renew_kept(
                weather,
                book,
                setup,
                &mut at.post,
                &mut kept.master,
                node,
                reading,
            )
        }
        _ => Ok(()),
    }
}

/// The extension, where the record leases by this setup.
fn extend_kept(
    weather: &mut OneFate,
    book: &mut Book,
    setup: &Setup,
    post: &mut Post,
    master: &mut Master,
    node: NodeNo,
) -> Result<(), Stopped>
    requires covers { IfSome post.old (Covers master.old.state) }
    requires rules { master.old.rules ≡ rules_of (numbers_of setup.now) }
    ensures made { Makes (extend_on (numbers_of setup.now) node weather.old.fate post.old master.old.state)
        (post.old, master.old.state) (post.new, master.new.state) book.old.items book.new.items result }
    ensures rules { master.new.rules ≡ master.old.rules }
{
    node_events::extend(weather, book, post, master, node)
}

fn extend_to(
    weather: &mut OneFate,
    book: &mut Book,
    setup: &Setup,
    post: &mut Option<&mut NodePart>,
    master: &mut Option<&mut MasterPart>,
    node: NodeNo,
) -> Result<(), Stopped>
    requires covers { IfSome (behind node_of post.old) (λ part. IfSome (behind master_of master.old) (λ kept. IfSome part.instance (Covers kept.state))) }
    requires rules { IfSome (behind master_of master.old) (λ kept. kept.rules ≡ rules_of (numbers_of setup.now)) }
    ensures { MakesOfRecord (λ i state. extend_on (numbers_of setup.now) node weather.old.fate i state) (behind node_of post.old) (behind master_of master.old) (behind node_of post.new) (behind master_of master.new) book.old.items book.new.items result }
{
    match (post, master) {
        (Some(place), Some(kept)) => {
            let at = &mut **place;
            let kept = &mut **kept;
            extend_kept(weather, book, setup, &mut at.post, &mut kept.master, node)
        }
        _ => Ok(()),
    }
}

pub(crate) fn take_among(
    alloc: Global,
    lent: &mut Lent<'_>,
    weather: &mut OneFate,
    book: &mut Book,
    node: NodeNo,
    reading: u64,
) -> Result<(), Stopped>
    requires all { HasAll (seen lent.old) (Event.Take node reading) }
    requires can { CanMake (filled (seen lent.old)) (Event.Take node reading) }
    requires leases { LeasesBySetup (seen lent.old) }
    ensures { Makes (lent_effect (seen lent.old) (Event.Take node reading) weather.old.fate) (seen lent.old) (seen lent.new) book.old.items book.new.items result }
{
    let setup = lent.setup();
    take_to(
        alloc,
        weather,
        book,
        &setup,
        &mut lent.node,
        &mut lent.master,
        node,
        reading,
    )
}

pub(crate) fn renew_among(
    lent: &mut Lent<'_>,
    weather: &mut OneFate,
    book: &mut Book,
    node: NodeNo,
    reading: u64,
) -> Result<(), Stopped>
    requires all { HasAll (seen lent.old) (Event.Renew node reading) }
    requires can { CanMake (filled (seen lent.old)) (Event.Renew node reading) }
    requires leases { LeasesBySetup (seen lent.old) }
    ensures { Makes (lent_effect (seen lent.old) (Event.Renew node reading) weather.old.fate) (seen lent.old) (seen lent.new) book.old.items book.new.items result }
{
    let setup = lent.setup();
    renew_to(
        weather,
        book,
        &setup,
        &mut lent.node,
        &mut lent.master,
        node,
        reading,
    )
}

pub(crate) fn extend_among(
    lent: &mut Lent<'_>,
    weather: &mut OneFate,
    book: &mut Book,
    node: NodeNo,
) -> Result<(), Stopped>
    requires all { HasAll (seen lent.old) (Event.Extend node) }
    requires can { CanMake (filled (seen lent.old)) (Event.Extend node) }
    requires leases { LeasesBySetup (seen lent.old) }
    ensures { Makes (lent_effect (seen lent.old) (Event.Extend node) weather.old.fate) (seen lent.old) (seen lent.new) book.old.items book.new.items result }
{
    let setup = lent.setup();
    extend_to(
        weather,
        book,
        &setup,
        &mut lent.node,
        &mut lent.master,
        node,
    )
}
