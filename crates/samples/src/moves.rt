// The plants of sample records: the facts that are shown and the moves that are allowed after some moves, derived by hand.
use crate::example::EXAMPLE;
use feeder::read::read;
use feeder::tables::PlantTable;
use grid::plant::NetworkPlant;
use model::fact::Fact;
use model::picture::Picture;
use model::plant::Plant;
use std::process::Abort;
use std::test::Fail;
use strips::plant::ActionPlant;

// An action table over two objects, with the predicates p0, p1(x) and p2(x, y):
// operator 0 needs p0 and makes not p0; operator 1 of x needs p1(x) and makes not p1(x) and p0;
// operator 2 of x and y needs p1(x) and not p2(x, y), and makes p2(x, y). At the start p0, p1(1) and p2(1, 0) hold.
// The facts are 0 for p0, 1 and 2 for p1, 3 to 6 for p2.
const ACTIONS: [u8; 69] = *b"\
    \x01\x01\x02\x03\x03\x02\x01\x01\x03\x00\x03\
    \x00\x01\x02\
    \x00\x01\x01\x01\x00\x00\x00\x00\x00\x00\x00\
    \x01\x01\x02\x01\x01\x10\x00\x00\x01\x10\x00\x01\x00\x00\x00\
    \x02\x02\x01\x01\x01\x10\x00\x00\x02\x10\x11\x01\x02\x10\x11\
    \x00\x00\x00\x02\x00\x05\
    \x01\x00\x04\
    \x00\x01\x00\x00\x10";

// Moves made from the start, the facts that then hold, and the moves that are then allowed.
type Scene = (&'static [u16], &'static [u16], &'static [u16]);

const NETWORK_SCENES: [Scene; 8] = [
    (&[], &[0, 1, 6, 7, 8], &[0, 16, 512, 528, 544]),
    // switch 1 open: section 2 is dark
    (&[16], &[0, 6, 7], &[0, 272, 512, 528, 544]),
    (&[16, 544], &[0, 5, 6, 7], &[0, 272, 512, 528, 800]),
    (
        &[16, 544, 800, 272],
        &[0, 1, 6, 7, 8],
        &[0, 16, 512, 528, 544],
    ),
    // switch 0 open: only the fed section is live
    (&[0], &[1, 6], &[16, 256, 512, 528, 544]),
    // no such section, a second argument, no such switch, no move: nothing changes
    (
        &[560, 17, 32, 4096],
        &[0, 1, 6, 7, 8],
        &[0, 16, 512, 528, 544],
    ),
    // closing what is closed, lifting what is not there
    (&[256, 768], &[0, 1, 6, 7, 8], &[0, 16, 512, 528, 544]),
    (&[512, 512], &[0, 1, 3, 6, 7, 8], &[0, 16, 528, 544, 768]),
];

const ACTION_SCENES: [Scene; 6] = [
    (&[], &[0, 2, 5], &[0, 272, 529]),
    (&[0], &[2, 5], &[272, 529]),
    (&[272], &[0, 5], &[0]),
    (&[529], &[0, 2, 5, 6], &[0, 272]),
    (&[0, 272], &[0, 5], &[0]),
    // an argument that is no object, one that should be 0, a precondition that fails, no such operator
    (&[288, 1, 256, 768], &[0, 2, 5], &[0, 272, 529]),
];

// Just these facts hold in a picture.
fn check_facts(rt: &impl Abort, picture: &Picture, facts: &[u16]) {
    // all facts, and numbers behind the last fact too
    for number in 0..520 {
        assert_eq!(rt;
            picture.holds(Fact { number }),
            facts.contains(&number),
            "of fact {number}"
        );
    }
}

// Just these moves are allowed in a state, found in their order.
fn check_allowed<P: Plant>(rt: &impl Abort, plant: &P, state: &P::State, allowed: &[u16]) {
    // not over all numbers: each question begins behind the last move
    let mut from = 0;
    for number in allowed {
        assert_eq!(rt; plant.allowed_from(state, from), Some(*number));
        from = number.saturating_add(1);
    }
    assert_eq!(rt; plant.allowed_from(state, from), None);
}

// A plant is as a scene says.
fn check_scene<P: Plant>(rt: &impl Abort, plant: &P, scene: &Scene) {
    let mut state = plant.first_state();
    for number in scene.0 {
        state = plant.after(&state, *number);
    }
    check_facts(rt, &plant.picture(&state), scene.1);
    check_allowed(rt, plant, &state, scene.2);
}

#[test]
fn network(rt: HostRuntime) -> Result<(), Fail> {
    // by let-else: the check makes no proof of `?` with the tables of the feeder taken out behind it
    let Ok(feeder) = read(&EXAMPLE) else {
        return Err(Fail::new("refused"));
    };
    let PlantTable::Network(network) = feeder.plant else {
        return Err(Fail::new("no network"));
    };
    let plant = NetworkPlant {
        network,
        first: feeder.first,
    };
    for scene in &NETWORK_SCENES {
        check_scene(&rt, &plant, scene);
    }
    Ok(())
}

// The plant of a record of an action table.
fn action_plant(record: &[u8]) -> Result<ActionPlant, Fail> {
    // by let-else: the check makes no proof of `?` with the tables of the feeder taken out behind it
    let Ok(feeder) = read(record) else {
        return Err(Fail::new("refused"));
    };
    let PlantTable::Actions(table) = feeder.plant else {
        return Err(Fail::new("no action table"));
    };
    Ok(ActionPlant {
        table,
        first: feeder.first,
    })
}

#[test]
fn actions(rt: HostRuntime) -> Result<(), Fail> {
    let plant = action_plant(&ACTIONS)?;
    for scene in &ACTION_SCENES {
        check_scene(&rt, &plant, scene);
    }
    Ok(())
}

// Where operator 1 deletes p1(x) and adds it too, it holds afterwards.
#[test]
fn added_after_deleted(rt: HostRuntime) -> Result<(), Fail> {
    let mut record = ACTIONS;
    record[37] = 1;
    record[38] = 16;
    let plant = action_plant(&record)?;
    check_scene(&rt, &plant, &(&[272], &[0, 2, 5], &[0, 272, 529]));
    Ok(())
}
