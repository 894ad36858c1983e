//! Connections over sockets, and when they are given up, by a clock that is set.
use dq_wires::{GivesUp, Limits, Progress, ReadTurn, Reason, SocketWires, WireFault, Wires};
use std::cell::Cell;
use std::io::{self, Read, Write};
use std::net::{Ipv4Addr, SocketAddr, TcpStream};
use std::test::Fail;
use std::time::{Clock, Duration};

/// An A-ASSOCIATE-AC without a body, which is enough to be one that was answered, and an A-ABORT
/// (PS3.8 sections 9.3.3 and 9.3.8).
const ACCEPTED: [u8; 6] = [2, 0, 0, 0, 0, 0];

const ABORT: [u8; 10] = [7, 0, 0, 0, 0, 4, 0, 0, 2, 0];

/// A clock that is set by hand, in seconds.
#[derive(Drop)]
pub(super) struct Hand(pub Cell<u64>);

impl Clock for Hand {
    fn monotonic(&self) -> io::Result<Duration> {
        Ok(Duration::from_secs(self.0.get()))
    }

    fn since_1970(&self) -> io::Result<Duration> {
        Ok(Duration::from_secs(self.0.get()))
    }
}

fn listen(rt: &HostRuntime, limits: Limits) -> Result<SocketWires, Fail> {
    let address = SocketAddr::from((Ipv4Addr::LOCALHOST, 0));
    let mut wires = SocketWires::listen(rt.alloc(), rt, address)?;
    wires.set_limits(limits);
    Ok(wires)
}

/// After 30 seconds by ARTIM.
fn artim() -> Limits {
    Limits {
        artim: Some(Duration::from_secs(30)),
        ..Limits::default()
    }
}

/// Rests so that time has passed by the clock.
fn pass(wires: &mut SocketWires, clock: &Hand, seconds: u64) -> Result<(), Fail> {
    wires.rest(clock, Duration::from_millis(20))?;
    clock.0.set(clock.0.get().saturating_add(seconds));
    wires.rest(clock, Duration::from_millis(20))?;
    Ok(())
}

fn reason_at(wires: &SocketWires, place: usize) -> Option<Reason> {
    Some(wires.given_up(place)?.reason)
}

#[test]
fn who_asks_for_nothing_is_given_up(rt: HostRuntime) -> Result<(), Fail> {
    let clock = Hand(Cell::new(0));
    let mut wires = listen(&rt, artim())?;
    let _peer = TcpStream::connect(&rt, wires.address()?)?;
    let mut buffer = [0; 16];
    pass(&mut wires, &clock, 29)?;
    assert_eq!(rt; wires.accept(), Ok(Some(0)));
    pass(&mut wires, &clock, 29)?;
    assert_eq!(rt; wires.read(0, &mut buffer), Ok(ReadTurn::Nothing));
    pass(&mut wires, &clock, 1)?;
    assert_eq!(rt; wires.read(0, &mut buffer), Ok(ReadTurn::Ended));
    assert!(rt; reason_at(&wires, 0) == Some(Reason::Artim));
    Ok(())
}

#[test]
fn who_sends_octet_by_octet_is_given_up(rt: HostRuntime) -> Result<(), Fail> {
    let clock = Hand(Cell::new(0));
    let mut wires = listen(&rt, artim())?;
    let mut peer = TcpStream::connect(&rt, wires.address()?)?;
    let mut buffer = [0; 16];
    assert_eq!(rt; wires.accept(), Ok(Some(0)));
    pass(&mut wires, &clock, 30)?;
    for _ in 0..2 {
        peer.write_all(b"\x01")?;
        wires.rest(&clock, Duration::from_secs(5))?;
    }
    assert_eq!(rt; wires.read(0, &mut buffer[..1]), Ok(ReadTurn::Got(1)));
    assert_eq!(rt; wires.read(0, &mut buffer[..1]), Ok(ReadTurn::Ended));
    assert!(rt; reason_at(&wires, 0) == Some(Reason::Artim));
    Ok(())
}

#[test]
fn who_was_answered_may_be_silent(rt: HostRuntime) -> Result<(), Fail> {
    let clock = Hand(Cell::new(0));
    let mut wires = listen(&rt, artim())?;
    let _peer = TcpStream::connect(&rt, wires.address()?)?;
    assert_eq!(rt; wires.accept(), Ok(Some(0)));
    assert_eq!(rt; wires.write(0, &ACCEPTED), Ok(6));
    pass(&mut wires, &clock, 3600)?;
    assert_eq!(rt; wires.read(0, &mut [0; 16]), Ok(ReadTurn::Nothing));
    assert!(rt; reason_at(&wires, 0).is_none());
    wires.set_limits(Limits {
        quiet: Some(Duration::from_secs(60)),
        ..artim()
    });
    assert_eq!(rt; wires.read(0, &mut [0; 16]), Ok(ReadTurn::Ended));
    assert!(rt; reason_at(&wires, 0) == Some(Reason::Quiet));
    Ok(())
}

#[test]
fn who_takes_no_last_pdu_is_given_up(rt: HostRuntime) -> Result<(), Fail> {
    let clock = Hand(Cell::new(0));
    let mut wires = listen(&rt, artim())?;
    let _peer = TcpStream::connect(&rt, wires.address()?)?;
    assert_eq!(rt; wires.accept(), Ok(Some(0)));
    assert_eq!(rt; wires.write(0, &ACCEPTED), Ok(6));
    pass(&mut wires, &clock, 3600)?;
    wires.learn(
        0,
        Progress {
            titles: None,
            is_over: true,
        },
    );
    pass(&mut wires, &clock, 29)?;
    assert_eq!(rt; wires.write(0, &ABORT), Ok(10));
    pass(&mut wires, &clock, 1)?;
    assert_eq!(rt; wires.write(0, &ABORT), Err(WireFault));
    assert!(rt; reason_at(&wires, 0) == Some(Reason::Artim));
    Ok(())
}

/// What was sent last reaches a peer that goes on sending (RFC 9112 section 9.6). Its place is free.
#[test]
fn who_goes_on_sending_gets_the_last_answer(rt: HostRuntime) -> Result<(), Fail> {
    let mut wires = listen(&rt, Limits::default())?;
    let mut peer = TcpStream::connect(&rt, wires.address()?)?;
    assert_eq!(rt; wires.accept(), Ok(Some(0)));
    peer.write_all(&[0; 100])?;
    assert_eq!(rt; wires.write(0, &ABORT), Ok(10));
    assert_eq!(rt; wires.shut(0), Ok(()));
    for _ in 0..3 {
        peer.write_all(&[0; 100])?;
        wires.rest(&rt, Duration::from_millis(20))?;
    }
    let mut answer = [0; 16];
    assert_eq!(rt; peer.read(&mut answer)?, 10);
    assert_eq!(rt; peer.read(&mut answer)?, 0);
    let _other = TcpStream::connect(&rt, wires.address()?)?;
    wires.rest(&rt, Duration::from_secs(5))?;
    assert_eq!(rt; wires.accept(), Ok(Some(0)));
    Ok(())
}

/// What is written after an answer, and before anything came, goes on with it.
#[test]
fn one_answer_goes_on_in_a_turn(rt: HostRuntime) -> Result<(), Fail> {
    let mut wires = listen(&rt, Limits::default())?;
    let _one = TcpStream::connect(&rt, wires.address()?)?;
    let _other = TcpStream::connect(&rt, wires.address()?)?;
    for place in [0, 1] {
        assert_eq!(rt; wires.accept(), Ok(Some(place)));
        assert_eq!(rt; wires.write(place, &ACCEPTED), Ok(6));
    }
    for (one, other) in [(6, 0), (0, 6), (6, 0)] {
        wires.begin_turn();
        assert_eq!(rt; wires.write(0, &ACCEPTED), Ok(one));
        assert_eq!(rt; wires.write(1, &ACCEPTED), Ok(other));
        assert!(rt; wires.is_busy());
    }
    Ok(())
}

#[test]
fn a_rest_ends_for_other_wires(rt: HostRuntime) -> Result<(), Fail> {
    let mut wires = listen(&rt, Limits::default())?;
    let mut others = listen(&rt, Limits::default())?;
    wires.watch(&others)?;
    assert_eq!(rt; others.accept(), Ok(None));
    let _peer = TcpStream::connect(&rt, others.address()?)?;
    others.begin_turn();
    let is_called = wires.rest_beside(&rt, Duration::from_secs(50))?;
    assert!(rt; is_called);
    others.look_beside(&rt, is_called)?;
    assert_eq!(rt; others.accept(), Ok(Some(0)));
    Ok(())
}
