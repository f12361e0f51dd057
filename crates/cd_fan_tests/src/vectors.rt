//! Exports of states, which another program wrote.

use crate::ListedLook;
use crate::pieces::joined;
use cd_boc_read::read_bag;
use cd_cell::{ChildInfo, Sha};
use cd_prepare::prepare_zero;
use cd_slices::Export;
use std::alloc::Global;
use std::test::Fail;

// Bags of states, and the texts of their exports: with cells that stand twice and cells that no root reaches; with a Merkle
// proof over a pruned branch; with library references.
const EXPORTS: [(&str, &str); 3] = [
    (
        "b5ee9c72c1010601006b00272e5765686b120200541b14d51cdf9782de3eb181dd4888e87dbdab8d358979ffbe0795f5\
         5990100003000201000900000000401206685b6355372177ae7358eac0219a46bf8baf26bae4f9091c47ac2e4c3eb3af\
         5f00029ab6360303040fbe942694f61bec9a040405050002bb0002bb0d7bdd50",
        "b5ee9c72c1010501002400050c1a1d24020200010402069ab6360202040fbe942694f61bec9a030303030002bb000900\
         00000040d6a5428f",
    ),
    (
        "b5ee9c72010107010094020946033516ba04c6e9c76b8da5a059af202b49afbcd3acd0239f4baefe6dc46f7ad5020000\
         060406ce2adf050303040406ce2adf05030304000f7f6e3bbb6b015db00008cc5248a70946033516ba04c6e9c76b8da5\
         a059af202b49afbcd3acd0239f4baefe6dc46f7ad502000006284801013516ba04c6e9c76b8da5a059af202b49afbcd3\
         acd0239f4baefe6dc46f7ad5020000",
        "b5ee9c72c1010501006500092f393f650406ce2adf010202030946033516ba04c6e9c76b8da5a059af202b49afbcd3ac\
         d0239f4baefe6dc46f7ad502000004000f7f6e3bbb6b015db00008cc5248a7284801013516ba04c6e9c76b8da5a059af\
         202b49afbcd3acd0239f4baefe6dc46f7ad5020000a0469888",
    ),
    (
        "b5ee9c72410109010089000301490702010004dedb0214b1d0656a8e19a1d872d4030504166bb33cf782f4c878bd4e11\
         04060408010d203652f75803f6050204682808060842028de0d71bf6dca7abcc8820500f98854e740add7307c946f0eb\
         59dd27a709d4b408420290eacfdb9baadf4cb331bb0154815e9322abfb037938e49041a711117cfc61620010dcf327ec\
         1dab148668228855",
        "b5ee9c72c10109010089000614252f35586285890301490501080214b1d0656a8e19a1d872d4020404166bb33cf782f4\
         c878bd4e1103070306010d203652f75803f60402046828060708420290eacfdb9baadf4cb331bb0154815e9322abfb03\
         7938e49041a711117cfc61620010dcf327ec1dab14860842028de0d71bf6dca7abcc8820500f98854e740add7307c946\
         f0eb59dd27a709d4b40004dedb8285d138",
    ),
];

// The state of a bag in memory, and what its root shows.
fn state(alloc: Global, bytes: &[u8]) -> Result<(ListedLook, ChildInfo), Fail> {
    let Ok(bag) = read_bag::<Sha>(alloc, bytes) else {
        return Err(Fail::from("no bag"));
    };
    match prepare_zero(alloc, &bag) {
        Ok(state) => Ok((ListedLook::of(alloc, state.cells())?, *state.root())),
        Err(_) => Err(Fail::from("no state")),
    }
}

#[test]
fn slices_join_to_the_exports_of_another_program(rt: HostRuntime) -> Result<(), Fail> {
    let alloc = rt.alloc();
    for (bag, due) in EXPORTS {
        let bag = hex::decode(alloc, bag)?;
        let due = hex::decode(alloc, due)?;
        let (mut look, root) = state(alloc, &bag)?;
        let export = Export::plan(alloc, &mut look, &root)?;
        for size in [1, 7, 100, 4096] {
            let text = joined(alloc, &export, &mut look, size)?;
            assert_eq!(rt; text.as_slice(), due.as_slice());
        }
    }
    Ok(())
}
