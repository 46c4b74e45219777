// Where newborns are placed.
use birth_board::{Occupants, PlacingRound, Torus, gather, neighbours, place};
use std::test::Fail;

#[test]
fn the_neighbours_of_a_corner_lie_across_the_sides(rt: HostRuntime) {
    let wide = Torus {
        width: 60,
        height: 60,
    };
    let row = Torus {
        width: 2,
        height: 1,
    };
    let single = Torus {
        width: 1,
        height: 1,
    };
    assert_eq!(rt;
        neighbours(&wide, 0),
        [3599, 3540, 3541, 59, 1, 119, 60, 61]
    );
    assert_eq!(rt; neighbours(&wide, 61), [0, 1, 2, 60, 62, 120, 121, 122]);
    assert_eq!(rt; neighbours(&row, 0), [1, 0, 1, 1, 1, 1, 0, 1]);
    assert_eq!(rt; neighbours(&single, 0), [0; 8]);
}

#[test]
fn each_cell_stands_as_often_as_it_is_counted(rt: HostRuntime) -> Result<(), Fail> {
    let parents = gather(rt.alloc(), &[2, 0, 1])?;
    assert_eq!(rt; parents.len(), 3);
    assert_eq!(rt; parents.get(2), Some(&2));
    assert_eq!(rt; parents.get(3), None);
    assert_eq!(rt; parents.into_vec().as_slice(), [0, 0, 2].as_slice());
    Ok(())
}

const SEASON: PlacingRound = PlacingRound {
    seed: 1,
    update: 7,
    prefer_empty: true,
    next_id: 1,
};

#[test]
fn an_empty_neighbour_is_preferred(rt: HostRuntime) -> Result<(), Fail> {
    let alloc = rt.alloc();
    let torus = Torus {
        width: 2,
        height: 1,
    };
    let parents = gather(alloc, &[1])?;
    let mut occupants = Occupants::empty(alloc, &torus)?;
    occupants.set(0, Some(0));
    assert_eq!(rt; parents.len(), 1);
    let placings = place(alloc, &torus, &parents, &mut occupants, &SEASON)?.into_vec();
    assert_eq!(rt; placings.len(), 1);
    assert_eq!(rt; placings[0].id, 1);
    assert_eq!(rt; placings[0].cell, 1);
    assert_eq!(rt; placings[0].over, None);
    Ok(())
}
