//! The words of each form: their results, and words that come close to them.
use crate::calls::{Streams, lines_come};
use dccp_command::Status;
use std::test::Fail;

/// The line that answers words that are none of the forms.
pub(crate) const USAGE: &str =
    "usage: dccp run | replay --side server|client [--plain] [--buffer C] | campaign --first F --seeds N --events E --workers W | show | listen --most M | ecn\n";

pub(crate) const HANDSHAKE: &str = "plain\nopen\ndeliver c0\ndeliver s0\ndeliver c1\n";

/// Of seven bytes a call.
pub(crate) const SEVEN: Streams = Streams {
    failing_read: None,
    failing_write: None,
    given: 7,
    taken: 7,
};

/// The first call of the source would fail.
pub(crate) const UNREAD: Streams = Streams {
    failing_read: Some(1),
    failing_write: None,
    given: 7,
    taken: 7,
};

// No words, and words that come close to a form without options.
const NO_FORM: &str = "\nwalk\nrun,x\nRun\nshow,x\necn,x\nEcn\n";

// Only openings: each client sends a Request, and no server gets it. Two of the 18 features of a seed are asked for.
const OPENINGS: &str =
    "seeds 3\nevents 3\nclient_frames 3\nserver_frames 0\ntook 0\ndelivered 0\ndropped 0\n\
synced 0\nwas_reset 0\nsent_reset 0\nrefused 0\nsettled 48\n";

/// Seeds 5 to 8 with 120 events each, by a second generator over a plain model of both ends.
pub(crate) const FOUR_SEEDS: &str =
    "seeds 4\nevents 480\nclient_frames 74\nserver_frames 82\ntook 347\ndelivered 22\ndropped 0\n\
synced 2\nwas_reset 0\nsent_reset 0\nrefused 7\nsettled 62\n";

// The ways to write a number, and some orders; the first and the last possible seed.
const OF_CAMPAIGNS: &str = "\
    campaign,--first,1,--seeds,3,--events,1,--workers,2\n\
    campaign,--workers=2,--events=1,--seeds=3,--first=1\n\
    campaign,--seeds,3,--first=1,--workers,16,--events=1\n\
    campaign,--events=1,--workers=1,--first,18446744073709551613,--seeds=3\n\
    campaign,--first,0,--seeds,3,--events,1,--workers,2\n";

// Some numbers of workers.
const WORKERS: &str = "\
    campaign,--first,5,--seeds,4,--events,120,--workers,1\n\
    campaign,--first,5,--seeds,4,--events,120,--workers,3\n\
    campaign,--first,5,--seeds,4,--events,120,--workers,16\n";

const FAILING_SINK: Streams = Streams {
    failing_read: Some(1),
    failing_write: Some(3),
    given: 7,
    taken: 7,
};

const CUT: &str = "campaign,--first,1,--seeds,3,--events,1,--workers,2";

// The sink fails after the two counts that the words give.
const MOST_EVENTS: &str = "campaign,--first=0,--seeds=1,--events=4096,--workers=1";

const FAILS_BEHIND_TWO_LINES: Streams = Streams {
    failing_read: Some(1),
    failing_write: Some(2),
    given: 7,
    taken: 20,
};

// What comes close to the words of a campaign.
const NO_CAMPAIGN: &str = "\
    campaign\n\
    campaign,--first,1,--seeds,1,--events,1\n\
    campaign,--first=1,--seeds=1,--events=1,--workers\n\
    campaign,--first=1,--seeds=1,--events=1,--workers=\n\
    campaign,--first=1,--seeds=1,--events=1,--workers=1,--\n\
    campaign,--,--first=1,--seeds=1,--events=1,--workers=1\n\
    campaign,--first=1,--seeds=1,--events=1,--workers=1,-h\n\
    campaign,--first=1,--seeds=1,--events=1,--workers=1,--help\n\
    campaign,--first=1,--seeds=1,--events=1,--workers=1,1\n\
    campaign,--first=1,--seeds=1,--events=1,--workers=1,\n\
    campaign,--first=1,--seeds=1,--events=1,--workers=1,--first=1\n\
    campaign,--first=1,--seeds=1,--events=1,--events,1\n\
    campaign,--first=+1,--seeds=1,--events=1,--workers=1\n\
    campaign,--first=01,--seeds=1,--events=1,--workers=1\n\
    campaign,--first=-1,--seeds=1,--events=1,--workers=1\n\
    campaign,--first==1,--seeds=1,--events=1,--workers=1\n\
    campaign,--First=1,--seeds=1,--events=1,--workers=1\n\
    campaign,-first=1,--seeds=1,--events=1,--workers=1\n\
    campaign,--first=18446744073709551616,--seeds=1,--events=1,--workers=1\n\
    campaign,--first=18446744073709551615,--seeds=2,--events=1,--workers=1\n\
    campaign,--first=1,--seeds=0,--events=1,--workers=1\n\
    campaign,--first=1,--seeds=100001,--events=1,--workers=1\n\
    campaign,--first=1,--seeds=1,--events=0,--workers=1\n\
    campaign,--first=1,--seeds=1,--events=4097,--workers=1\n\
    campaign,--first=1,--seeds=1,--events=1,--workers=0\n\
    campaign,--first=1,--seeds=1,--events=1,--workers=17\n";

const OF_LISTENERS: &str = "\
    listen,--most,1\n\
    listen,--most=1\n\
    listen,--most,1024\n\
    listen,--most=1024\n";

const NO_LISTENER: &str = "\
    listen\n\
    listen,1\n\
    listen,--most\n\
    listen,--most=\n\
    listen,--most,0\n\
    listen,--most,1025\n\
    listen,--most,01\n\
    listen,--most,+1\n\
    listen,--most=1=1\n\
    listen,--most,--most=1\n\
    listen,--most,1,1\n\
    listen,--most=1,--most=1\n\
    listen,--most,1,--\n\
    listen,-most,1\n\
    listen,--mos=11\n\
    --most,1,listen\n";

// What ends say to which no frame came.
const SERVER: &str =
    "end server LISTEN window 4 flight 0 1=2/2 2=0/0 3=100/100 4=0/0 5=2/2 6=0/0 7=0/0 8=0/0 9=0/0\n";

const CLIENT: &str = "open: ok\n\
sent c0 9c401389080000b601000000000003e80000002a012004040101220406010000\n\
end client REQUEST window 4 flight 0 1=2/2 2=0/0 3=100/100 4=0*/0 5=2/2 6=0/0* 7=0/0 8=0/0 9=0/0\n";

const PLAIN_CLIENT: &str = "open: ok\n\
sent c0 9c401389050031ec01000000000003e80000002a\n\
end client REQUEST window 4 flight 0 1=2/2 2=0/0 3=100/100 4=0/0 5=2/2 6=0/0 7=0/0 8=0/0 9=0/0\n";

// Lists of words of replays, with their results; all are without a buffer.
const OF_A_SERVER: &str = "\
    replay,--side,server\n\
    replay,--side=server\n\
    replay,--side,server,--plain\n\
    replay,--side=server,--plain\n\
    replay,--plain,--side,server\n\
    replay,--plain,--side=server\n\
    replay,--side,server,--buffer,1\n\
    replay,--buffer=1024,--side=server\n";

const OF_A_CLIENT: &str = "\
    replay,--side,client\n\
    replay,--side=client\n\
    replay,--buffer=1,--side,client\n";

const OF_A_PLAIN_CLIENT: &str = "\
    replay,--side,client,--plain\n\
    replay,--side=client,--plain\n\
    replay,--plain,--side,client\n\
    replay,--plain,--side=client\n\
    replay,--side,client,--buffer,2,--plain\n\
    replay,--plain,--buffer=10,--side,client\n\
    replay,--buffer,1024,--plain,--side=client\n";

const NO_REPLAY: &str = "\
    replay\n\
    replay,--plain\n\
    replay,--side\n\
    replay,--side=\n\
    replay,--side,Server\n\
    replay,--side=server \n\
    replay,server\n\
    replay,-h\n\
    replay,--help\n\
    replay,--side,server,--\n\
    replay,--,--side,server\n\
    replay,--side,--plain\n\
    replay,--side,server,--plain=\n\
    replay,--side,server,--plain=true\n\
    replay,--side,server,client\n\
    replay,--side,server,--side,server\n\
    replay,--side=server,--side=server\n\
    replay,--plain,--side,server,--plain\n\
    replay,--plain,--plain,--side=server\n\
    --side,server,replay\n\
    replay,--buffer,1\n\
    replay,--buffer,1,--plain\n\
    replay,--side,server,--buffer\n\
    replay,--side,server,--buffer=\n\
    replay,--side,server,--buffer,0\n\
    replay,--side,server,--buffer,1025\n\
    replay,--side,server,--buffer=01\n\
    replay,--side,server,--buffer,--plain\n\
    replay,--side,server,--buffer,1,--buffer,1\n\
    replay,--buffer=1,--plain,--side,server,--buffer=2\n";

// Streams, lines of words, the input, and the result of each line over it.
type Row = (
    &'static str,
    Streams,
    &'static str,
    &'static str,
    Status,
    &'static str,
);

const ROWS: [Row; 12] = [
    (
        "campaign_totals",
        UNREAD,
        OF_CAMPAIGNS,
        "",
        Status::Done,
        OPENINGS,
    ),
    (
        "workers_of_campaigns",
        UNREAD,
        WORKERS,
        "",
        Status::Done,
        FOUR_SEEDS,
    ),
    (
        "failing_sink_of_a_campaign",
        FAILING_SINK,
        CUT,
        "",
        Status::Write,
        "seeds 3\nevents",
    ),
    (
        "most_events_of_a_campaign",
        FAILS_BEHIND_TWO_LINES,
        MOST_EVENTS,
        "",
        Status::Write,
        "seeds 1\nevents 4096\n",
    ),
    (
        "words_of_listeners",
        SEVEN,
        OF_LISTENERS,
        "",
        Status::Done,
        "flows 0\n",
    ),
    (
        "words_of_replays",
        SEVEN,
        OF_A_SERVER,
        "",
        Status::Done,
        SERVER,
    ),
    (
        "words_of_clients",
        SEVEN,
        OF_A_CLIENT,
        "",
        Status::Done,
        CLIENT,
    ),
    (
        "words_of_plain_clients",
        SEVEN,
        OF_A_PLAIN_CLIENT,
        "",
        Status::Done,
        PLAIN_CLIENT,
    ),
    (
        "refused_words",
        SEVEN,
        NO_FORM,
        HANDSHAKE,
        Status::Words,
        USAGE,
    ),
    (
        "refused_words_of_campaigns",
        SEVEN,
        NO_CAMPAIGN,
        HANDSHAKE,
        Status::Words,
        USAGE,
    ),
    (
        "refused_words_of_listeners",
        SEVEN,
        NO_LISTENER,
        HANDSHAKE,
        Status::Words,
        USAGE,
    ),
    (
        "refused_words_of_replays",
        SEVEN,
        NO_REPLAY,
        HANDSHAKE,
        Status::Words,
        USAGE,
    ),
];

#[test]
fn words_of_each_form(rt: HostRuntime) -> Result<(), Fail> {
    for (name, streams, lines, input, status, text) in &ROWS {
        lines_come(
            &rt,
            rt.alloc(),
            streams,
            (name, lines, input),
            (*status, text),
        )?;
    }
    Ok(())
}
