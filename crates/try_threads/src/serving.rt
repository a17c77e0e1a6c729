//! Doors, spawners, and the loop that joins them.

ghost use Rattle.std.specs.Prelude.{◌≡◌, [], true, refl, Some, None};

use crossbeam_channel::{Receiver, Sender, unbounded};
use ep_doors::{
    Came, Doors, Host, Job, MemSpawner, Served, Spawner, ThreadSpawner, serve, start_all,
};
use ep_link::{LinkBad, MemLink};
use ep_outside::{Device, Failed, Got, Sink, Source};
use ep_units::NoMemory;
use std::alloc::Global;
use std::collections::VecDeque;
use std::sync::Wait;
use std::test::Fail;
use std::thread::join;

/// Tells on a channel that it was done.
struct Told {
    number: u64,
    to: Sender<u64>,
}

impl Drop for Told {
    fn drop(self) {
        let Told { number: _, to: _ } = self;
    }
}

impl Job for Told {
    fn go<R: Wait>(self, rt: &R) {
        drop(self.to.send(rt, self.number));
    }
}

/// Numbers its callers.
struct Counter {
    given: u64,
    to: Sender<u64>,
}

impl Drop for Counter {
    fn drop(self) {
        let Counter { given: _, to: _ } = self;
    }
}

impl Counter {
    fn next(&mut self) -> Result<Told, NoMemory> {
        self.given = self.given.saturating_add(1);
        Ok(Told {
            number: self.given,
            to: self.to.clone()?,
        })
    }
}

impl<P: Drop, A: Drop> Host<P, A> for Counter {
    type Work = Told;

    fn pad(&mut self, _link: P) -> Result<Told, NoMemory> {
        self.next()
    }

    fn api(&mut self, _caller: A) -> Result<Told, NoMemory> {
        self.next()
    }
}

/// A caller of the API who asks nothing.
#[derive(Drop)]
struct Silent;

impl Device for Silent {
    ghost failures = { λ _. 0 };

    ghost is_steady = { λ _. true };

    ghost never_fails = { λ _ _. refl };

    fn faults(&self) -> u64 {
        0
    }
}

impl Source for Silent {
    ghost left = { λ _. Some [] };

    fn read(&mut self, _room: &mut [u8]) -> Got {
        Got::End
    }
}

impl Sink for Silent {
    ghost held = { λ _. None };

    fn write(&mut self, _bytes: &[u8]) -> Result<(), Failed> {
        Ok(())
    }
}

#[derive(Clone, Copy)]
enum Who {
    Pad,
    Api,
    Nobody,
}

/// Doors to which these come, and then nobody.
struct Listed {
    alloc: Global,
    coming: VecDeque<Who>,
    given: u64,
}

impl Drop for Listed {
    fn drop(self) {
        let Listed {
            alloc: _,
            coming: _,
            given: _,
        } = self;
    }
}

impl Device for Listed {
    ghost failures = { λ _. 0 };

    ghost is_steady = { λ _. true };

    ghost never_fails = { λ _ _. refl };

    fn faults(&self) -> u64 {
        0
    }
}

impl Doors for Listed {
    type Pad = MemLink;

    type Api = Silent;

    ghost count = { λ d. d.given };

    ghost is_over = { λ d. d.coming.items ≡ [] };

    fn given(&self) -> u64 {
        self.given
    }

    fn accept<R: Wait>(&mut self, _rt: &R) -> Came<MemLink, Silent> {
        match self.coming.pop_front() {
            None => Came::End,
            Some(Who::Nobody) => Came::Nothing,
            Some(Who::Pad) => {
                self.given = self.given.saturating_add(1);
                Came::Pad(MemLink::new(self.alloc, VecDeque::new(self.alloc), Vec::new(self.alloc)))
            }
            Some(Who::Api) => {
                self.given = self.given.saturating_add(1);
                Came::Api(Silent)
            }
        }
    }

    fn connect<R: Wait>(&mut self, _rt: &R) -> Result<MemLink, LinkBad> {
        Err(LinkBad::NoMemory)
    }
}

/// Doors to which four come in five turns.
fn four(alloc: Global) -> Result<Listed, NoMemory> {
    let mut coming = VecDeque::new(alloc);
    for who in [Who::Pad, Who::Nobody, Who::Api, Who::Pad, Who::Pad] {
        coming.push_back(who)?;
    }
    Ok(Listed {
        alloc,
        coming,
        given: 0,
    })
}

/// The numbers that were told, in order.
fn heard<R: Wait>(rt: &R, alloc: Global, from: &Receiver<u64>) -> Result<Vec<u64>, NoMemory> {
    let mut all = Vec::new(alloc);
    for number in from.try_iter(rt) {
        all.push(number)?;
    }
    all.sort_unstable();
    Ok(all)
}

/// Whether just these numbers were told.
fn are_heard<R: Wait>(
    rt: &R,
    alloc: Global,
    from: &Receiver<u64>,
    wanted: &[u64],
) -> Result<bool, NoMemory> {
    Ok(heard(rt, alloc, from)?.as_slice() == wanted)
}

/// How the serving of four callers ended, how many the doors gave, and how many jobs were started.
fn served<R: Wait, W: Spawner<Told>>(
    rt: &R,
    alloc: Global,
    spawner: &mut W,
    to: Sender<u64>,
) -> Result<(Served, u64, u64), NoMemory> {
    let mut doors = four(alloc)?;
    let served = serve(rt, &mut doors, &mut Counter { given: 0, to }, spawner);
    Ok((served, doors.given(), spawner.started()))
}

/// The sum of the next four numbers that are told.
fn sum_of_four<R: Wait>(rt: &R, from: &Receiver<u64>) -> u64 {
    let mut sum = 0;
    for _ in 0..4 {
        sum = u64::saturating_add(sum, from.recv(rt).unwrap_or(0));
    }
    sum
}

#[test]
fn each_caller_gets_a_job(rt: HostRuntime) -> Result<(), Fail> {
    let alloc = rt.alloc();
    let (to, from) = unbounded(alloc)?;
    let mut spawner = MemSpawner::new(Vec::new(alloc));
    let (served, given, started) = served(&rt, alloc, &mut spawner, to)?;
    assert_eq!(&rt; served, Served::Ended);
    assert_eq!(&rt; given, 4);
    assert_eq!(&rt; started, 4);
    assert!(&rt; are_heard(&rt, alloc, &from, &[1, 2, 3, 4])?);
    Ok(())
}

#[test]
fn a_job_that_is_not_started_ends_it(rt: HostRuntime) -> Result<(), Fail> {
    let alloc = rt.alloc();
    let (to, from) = unbounded(alloc)?;
    let mut spawner = MemSpawner::new(Vec::from_slice(alloc, &[2])?);
    let (served, given, _) = served(&rt, alloc, &mut spawner, to)?;
    assert_eq!(&rt; served, Served::NotStarted(1));
    assert_eq!(&rt; given, 2);
    assert!(&rt; are_heard(&rt, alloc, &from, &[1])?);
    Ok(())
}

#[test]
fn jobs_go_in_threads(rt: HostRuntime) -> Result<(), Fail> {
    let alloc = rt.alloc();
    let (to, from) = unbounded(alloc)?;
    let (spawner, starter) = ThreadSpawner::new(alloc)?;
    let (served, ()) = join(
        &rt,
        move || {
            let mut spawner = spawner;
            served(&rt, alloc, &mut spawner, to)
        },
        || start_all(&rt, starter),
    );
    assert_eq!(&rt; served?.0, Served::Ended);
    assert_eq!(&rt; sum_of_four(&rt, &from), 10);
    Ok(())
}
