use channel::ChannelFault;
use key_book::KeyBookFault;
use policy::PolicyFault;
use std::alloc::{AllocError, Global};
use std::fmt::Display;

fn of_channels() -> &'static [(ChannelFault, &'static str)] {
    &OF_CHANNELS
}

static OF_CHANNELS: [(ChannelFault, &str); 6] = [
    (
        ChannelFault::Line(7),
        "line 7: none of `channel NAME`, `chaincode NAME POLICY` and `admin POLICY`",
    ),
    (
        ChannelFault::Repeated(300),
        "line 300: repeats an earlier line's channel, chaincode or admin",
    ),
    (
        ChannelFault::Policy(2, PolicyFault::Syntax { at: 4 }),
        "line 2: the policy's byte 4 can't stand there",
    ),
    (
        ChannelFault::TooMany(258),
        "line 258: more than 256 chaincodes",
    ),
    (ChannelFault::NoChannel, "no line names the channel"),
    (ChannelFault::Memory, "out of memory"),
];

fn of_key_books() -> &'static [(KeyBookFault, &'static str)] {
    &OF_KEY_BOOKS
}

static OF_KEY_BOOKS: [(KeyBookFault, &str); 2] = [
    (KeyBookFault::Line(7), "line 7"),
    (KeyBookFault::Memory, "out of memory"),
];

fn is_told<F: Display>(alloc: Global, fault: &F, text: &str) -> Result<bool, AllocError> {
    let told = format!(in alloc; "{fault}")?;
    Ok(told.as_str() == text)
}

#[test]
fn each_fault_is_told(rt: HostRuntime) -> Result<(), AllocError> {
    for (fault, text) in of_channels() {
        assert!(rt; is_told(rt.alloc(), fault, text)?, "{text}");
    }
    for (fault, text) in of_key_books() {
        assert!(rt; is_told(rt.alloc(), fault, text)?, "{text}");
    }
    Ok(())
}
