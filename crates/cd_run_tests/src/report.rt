use cd_base::Hash256;
use cd_block::{BlockId, ShardId};
use cd_feed::{Feed, Phase, Phases, Task, Tasks, Workers};
use cd_run::{Outcome, TaskRefusal, report};
use cd_world::Totals;
use std::test::Fail;

const TOTALS: Totals = Totals {
    blocks: 14,
    cells: 5170,
    counts: 6578,
};

const ID: BlockId = BlockId {
    shard_id: ShardId {
        workchain: -1,
        shard: 0x8000_0000_0000_0000,
    },
    seqno: 3,
    root: Hash256([0x11; 32]),
    file: Hash256([0; 32]),
};

#[test]
#[tactic(auto, unfolding(cd_feed::specs::Feeds::feed_serves, cd_feed::specs::Feeds::phase_serves, cd_feed::specs::Feeds::worker_serves, cd_feed::specs::Feeds::is_serve, cd_feed::specs::Feeds::IsTaskFit))]
fn the_report_of_no_task(rt: HostRuntime) -> Result<(), Fail> {
    let alloc = rt.alloc();
    let feed = Feed {
        phases: Phases::from(Vec::new(alloc)),
    };
    let text = report(alloc, &feed, &[], &TOTALS)?;
    assert_eq!(rt;
        text.as_str(),
        "blocks 14\ncells 5170\ncounts 6578\ntasks 0 ok 0 refused\n"
    );
    Ok(())
}

#[test]
#[tactic(auto, unfolding(cd_feed::specs::Feeds::feed_serves, cd_feed::specs::Feeds::phase_serves, cd_feed::specs::Feeds::worker_serves, cd_feed::specs::Feeds::is_serve, cd_feed::specs::Feeds::IsTaskFit))]
fn the_report_of_a_refused_task(rt: HostRuntime) -> Result<(), Fail> {
    let alloc = rt.alloc();
    let tasks = vec![in alloc; Task::Expire { id: ID }]?;
    let workers = vec![in alloc; Tasks::from(tasks)]?;
    let phases = vec![in alloc;
        Phase {
            workers: Workers::from(workers)
        },
    ]?;
    let feed = Feed {
        phases: Phases::from(phases),
    };
    let ends = vec![in alloc; Outcome::Refused(TaskRefusal::NotMaster)]?;
    let phase = vec![in alloc; ends]?;
    let text = report(alloc, &feed, &[phase], &TOTALS)?;
    assert_eq!(rt;
        text.as_str(),
        "0.0.0 expire refused NotMaster\nblocks 14\ncells 5170\ncounts 6578\ntasks 0 ok 1 refused\n"
    );
    Ok(())
}
