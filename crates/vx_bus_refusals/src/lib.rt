//! Why the bus refuses a call, mirrored from the machine's definitions by `.or(..)`.
#![tactic(auto)]

mod refusals;

pub use refusals::{
    add_codec_refusal, add_rule_refusal, bad_address, consumer_refusal, fail_refusal,
    fetch_refusal, no_codec, no_rule, register_refusal, reply_refusal, reply_request_refusal,
    request_refusal, send_refusal,
};
