//! A dozen examples; the stored samples of the programs have many more.
use checks::check_limit;
use codec::{encode, next_call};
use faults::{FieldFault, Refusal};
use std::alloc::Global;
use std::test::Fail;
use types::{Call, CancelReason, Lot, OrderKind, OrderNumber, Price, Quote, Report, Side, Volume};
use wire::{FrameReader, report_bytes, write_call};
use words::Dollars;

/// Number, layer and place of a refusal, as one number each.
fn told(refusal: Refusal) -> (u8, u8, u32) {
    (refusal.reason.into(), refusal.layer.into(), refusal.place)
}

fn first_refusal(bytes: &[u8]) -> Option<(u8, u8, u32)> {
    let mut frames = FrameReader::new(bytes);
    let fault = next_call(&mut frames, Lot::Hundred).err()?;
    Some(told(fault.into()))
}

#[test]
fn nothing_is_the_end(rt: HostRuntime) -> Result<(), Fail> {
    let mut frames = FrameReader::new(&[]);
    match next_call(&mut frames, Lot::Hundred) {
        Ok(None) => {
            assert_eq!(rt; frames.bytes_left(), 0);
            Ok(())
        },
        _ => Err(Fail::new("no bytes are the end")),
    }
}

#[test]
fn three_bytes_are_short_and_stay(rt: HostRuntime) -> Result<(), Fail> {
    let mut frames = FrameReader::new(&[0, 0, 1]);
    match next_call(&mut frames, Lot::Hundred) {
        Err(fault) => assert_eq!(rt; told(fault.into()), (1, 1, 0)),
        Ok(_) => return Err(Fail::new("three bytes are short")),
    }
    assert_eq!(rt; frames.bytes_left(), 3);
    Ok(())
}

#[test]
fn length_under_two_comes_before_the_version(rt: HostRuntime) {
    assert_eq!(rt; first_refusal(&[0, 1, 9, 9]), Some((4, 1, 0)));
}

#[test]
fn version_comes_before_the_kind(rt: HostRuntime) {
    assert_eq!(rt; first_refusal(&[0, 2, 2, 9]), Some((2, 1, 2)));
}

#[test]
fn kind_comes_before_its_length(rt: HostRuntime) {
    assert_eq!(rt; first_refusal(&[0, 3, 1, 8, 0]), Some((3, 1, 3)));
}

#[test]
fn reading_goes_on_behind_a_refused_frame(rt: HostRuntime) -> Result<(), Fail> {
    let mut frames = FrameReader::new(&[0, 3, 1, 4, 0, 0, 2, 1, 4]);
    if let Ok(_) = next_call(&mut frames, Lot::Hundred) {
        return Err(Fail::new("a halt has no third byte"));
    }
    match next_call(&mut frames, Lot::Hundred) {
        Ok(Some(Call::Halt)) => {
            assert_eq!(rt; frames.bytes_left(), 0);
            Ok(())
        },
        _ => Err(Fail::new("the halt behind it is read")),
    }
}

#[test]
fn wrong_letter_is_told_at_the_trader(rt: HostRuntime) {
    assert_eq!(rt;
        first_refusal(&[0, 12, 1, 2, 65, 65, 65, 97, 65, 65, 0, 0, 0, 1]),
        Some((5, 2, 4))
    );
}

fn quoted_twice(heap: Global) -> Result<Vec<u8>, Fail> {
    let quote = Quote {
        bid: None,
        offer: Some(Price { quarters: 4012 }),
    };
    let mut out = Vec::new(heap);
    write_call(&mut out, &encode(&Call::Quote(quote)))?;
    write_call(&mut out, &encode(&Call::Resume(quote)))?;
    Ok(out)
}

#[test]
fn quote_and_resume_are_told_apart(rt: HostRuntime) -> Result<(), Fail> {
    let out = quoted_twice(rt.alloc())?;
    let mut frames = FrameReader::new(out.as_slice());
    match next_call(&mut frames, Lot::Hundred) {
        Ok(Some(Call::Quote(_))) => {}
        _ => return Err(Fail::new("the first is a quote")),
    }
    match next_call(&mut frames, Lot::Hundred) {
        Ok(Some(Call::Resume(quote))) => {
            assert!(rt; quote.bid.is_none() && quote.offer.is_some());
            Ok(())
        },
        _ => Err(Fail::new("the second is a resume")),
    }
}

fn limit_passes(kind: OrderKind, quarters: u32) -> bool {
    check_limit(kind, Price { quarters }).is_ok()
}

#[test]
fn pegs_stand_on_half_ticks(rt: HostRuntime) {
    assert!(rt; !limit_passes(OrderKind::Limit, 199) && limit_passes(OrderKind::Peg, 199));
    assert!(rt; !limit_passes(OrderKind::Iceberg, 202) && limit_passes(OrderKind::Peg, 202));
}

#[test]
fn report_reads_back(rt: HostRuntime) -> Result<(), Fail> {
    let report = Report::trade(
        OrderNumber { number: 7 },
        OrderNumber { number: 9 },
        Price { quarters: 4006 },
        Volume { shares: 500 },
        Side::Sell,
        true,
    );
    let bytes = report_bytes(report);
    let mut frames = FrameReader::new(&bytes);
    match frames.next_report() {
        Ok(Some(read)) => {
            assert_eq!(rt;
                (read.order, read.other, read.price, read.volume, read.mark),
                (7, 9, 4006, 500, 6)
            );
            Ok(())
        },
        _ => Err(Fail::new("a report reads back")),
    }
}

#[test]
fn blank_is_no_report(rt: HostRuntime) -> Result<(), Fail> {
    let bytes = report_bytes(Report::blank());
    let mut frames = FrameReader::new(&bytes);
    match frames.next_report() {
        Err(fault) => {
            assert_eq!(rt; told(FieldFault::Frame(fault).into()), (3, 1, 3));
            Ok(())
        },
        Ok(_) => Err(Fail::new("kind 0 is refused")),
    }
}

#[test]
fn cancelled_says_why(rt: HostRuntime) {
    let report = Report::cancelled(
        OrderNumber { number: 3 },
        Volume { shares: 200 },
        CancelReason::Close,
    );
    assert_eq!(rt;
        (
            report.order,
            report.other,
            report.price,
            report.volume,
            report.mark,
        ),
        (3, 0, 0, 200, 5)
    );
}

#[test]
fn half_cent_middle_in_dollars(rt: HostRuntime) -> Result<(), Fail> {
    let dollars = Dollars {
        price: Price { quarters: 4006 },
    };
    let text = format!(in rt.alloc(); "{dollars}")?;
    assert!(rt; text.as_str() == "10.0150");
    Ok(())
}
