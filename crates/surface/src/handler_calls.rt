use handler::{Ask, Done, Handler, Sample, Turn};
use model::{Kind, NoMemory, Seat, Source, Text, Unit};
use std::test::Fail;

fn seat(unit: u8, kind: u8, home: u8) -> Seat {
    Seat {
        unit: Unit::new(unit),
        kind: Kind::new(kind),
        home,
    }
}

/// The outputs of a unit of this kind upon these texts, one after another.
fn outputs_of<H: Handler>(
    rt: &HostRuntime,
    handler: &H,
    name: &str,
    texts: &[&str],
) -> Result<Vec<Text>, Fail> {
    let alloc = rt.alloc();
    let kind = handler.kind(name).ok_or("no such kind")?;
    let at = Seat {
        unit: Unit::new(0),
        kind,
        home: 1,
    };
    let mut state = handler.begin(alloc, at)?;
    let mut all = Vec::new(alloc);
    for text in texts {
        state = next(rt, handler, &at, &state, text, &mut all)?;
    }
    Ok(all)
}

/// The state after this text, whose outputs are added.
fn next<H: Handler>(
    rt: &HostRuntime,
    handler: &H,
    at: &Seat,
    state: &H::State,
    text: &str,
    all: &mut Vec<Text>,
) -> Result<H::State, NoMemory> {
    let turn = handler.handle(rt.alloc(), *at, state, Source::Outside, text)?;
    push_all(all, turn.outputs())?;
    handler.copy(rt.alloc(), &turn.state)
}

fn push_all(all: &mut Vec<Text>, outputs: &[Text]) -> Result<(), NoMemory> {
    for output in outputs {
        all.push(output.copy()?)?;
    }
    Ok(())
}

#[test]
fn kinds_put_out_what_they_mean(rt: HostRuntime) -> Result<(), Fail> {
    let cases: [(&str, &[&str], &[&str]); 6] = [
        ("echo", &["x", ""], &["x", ""]),
        ("relay", &["x"], &[]),
        ("count", &["x", "y", "z"], &["1", "2", "3"]),
        (
            "adder",
            &["18446744073709551615", "1", "-1"],
            &["18446744073709551615", "18446744073709551615", "?"],
        ),
        (
            "adder",
            &[
                "007",
                "",
                "+1",
                "18446744073709551616",
                "000000000000000000001",
                "35",
            ],
            &["7", "?", "?", "?", "?", "42"],
        ),
        ("tee", &["x"], &["x"]),
    ];
    for (kind, texts, want) in cases {
        let got = outputs_of(&rt, &Sample, kind, texts)?;
        assert_eq!(rt; got.len(), want.len(), "{kind}");
        for (one, other) in got.iter().zip(want.iter()) {
            assert!(rt; one.as_str() == *other, "{kind}");
        }
    }
    Ok(())
}

#[test]
fn sends_go_to_the_next_unit(rt: HostRuntime) -> Result<(), Fail> {
    for (at, next) in [
        (seat(0, 1, 1), Some(0)),
        (seat(0, 1, 3), Some(1)),
        (seat(2, 1, 3), Some(0)),
        (seat(0, 1, 0), None),
        (seat(0, 4, 1), Some(1)),
        (seat(255, 4, 1), None),
        (seat(0, 0, 1), None),
        (seat(0, 5, 1), None),
    ] {
        let turn = Sample.handle(rt.alloc(), at, &None, Source::Outside, "x")?;
        let sent = turn.sends().first().map(|send| send.0.number());
        assert!(rt; sent == next);
    }
    Ok(())
}

#[test]
fn other_names_are_unknown(rt: HostRuntime) {
    for name in ["", "Echo", "echo ", "relays"] {
        assert!(rt; Sample.kind(name).is_none(), "{name}");
    }
}
