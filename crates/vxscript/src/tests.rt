use std::alloc::{AllocError, Global};
use std::test::Fail;
use vx_data::Text;
use vx_io::{MemSink, MemSource};
use vx_script::{LineWhy, Status, script};

/// Whether a script with these words ends so, and its sink then holds this.
fn ends(
    alloc: Global,
    words: &[Text],
    mut source: MemSource,
    mut sink: MemSink,
    status: Status,
    output: &[u8],
) -> bool {
    let got = script(alloc, words, &mut source, &mut sink);
    got == status && sink.bytes() == output
}

/// Whether a script over forms in memory ends so, and writes this.
fn plays(alloc: Global, input: Vec<u8>, status: Status, output: &[u8]) -> bool {
    let source = MemSource::new(input, Vec::new(alloc));
    let sink = MemSink::new(alloc, Vec::new(alloc));
    ends(
        alloc,
        &[Text::constant("run")],
        source,
        sink,
        status,
        output,
    )
}

fn bad(line: u64, why: LineWhy) -> Status {
    Status::BadLine { line, why }
}

/// Scripts whose lines are all good, with the lines that they write. A `/` stands for a newline.
static GOOD: [(&str, &str); 66] = [
    ("", ""),
    (
        "context/deploy +tell:0 silent s 2/take loop 0/finish/take loop 1/finish fail 7/take loop 1/take loop 0/finish/take own 0",
        "context 0/deployment 1/start 1/ok/start 1.1/ok/idle/stop 1/ok/deployend 1 fail 7/",
    ),
    (
        "close/context/take pool/close",
        "ok/refused 28 host closed 0/stopped/refused 28 host closed 0/",
    ),
    ("take loop 16", "refused 8 no lane/"),
    ("finish", "refused 5 not holding/"),
    ("send news 1/", "sent 0 to none/"),
    (
        "context/register 0 news/send news \"hi\"/take own 0/finish/",
        "context 0/consumer 1/sent 2 to 1/deliver 1 2 \"hi\"/ok/",
    ),
    (
        "context/register 0 a/send a 1/take own 0/take own 0/finish",
        "context 0/consumer 1/sent 2 to 1/deliver 1 2 1/refused 6 holding 3/ok/",
    ),
    (
        "context/register 0 a/register 0 a/send a 1/send a 2/send a 3/unregister 1/send a 4",
        "context 0/consumer 1/consumer 2/sent 3 to 1/sent 4 to 2/sent 5 to 1/ok/sent 7 to 2/",
    ),
    (
        "context/register 0 a/register 0 a/send a 1/send a 2/send a 3/unregister 1/send a 4/\
         unregister 2/register 0 a/send a 0",
        "context 0/consumer 1/consumer 2/sent 3 to 1/sent 4 to 2/sent 5 to 1/ok/sent 7 to 2/\
         ok/consumer 9/sent 10 to 9/",
    ),
    (
        "\r/# no call//  context  /register 000  a /send a  \"x y\" /take own 7/take   own 0.0",
        "context 0/consumer 1/sent 2 to 1/refused 8 no lane/deliver 1 2 \"x y\"/",
    ),
    (
        "register 5 a/take own 5/take own 0.1",
        "refused 1 no context/refused 8 no lane/refused 8 no lane/",
    ),
    ("context/take own 0", "context 0/idle/"),
    (
        "context/register 0 a/request 0 a 1/take own 0/reply 2 \"x\"/reply 2 \"y\"/finish/take own 0",
        "context 0/consumer 1/asked 2 to 1/request 1 2 1/ok/refused 13 late 4/ok/outcome 2 ok \"x\"/",
    ),
    (
        "context/register 0 a/request +timeout:1 0 a 1/advance 0/advance 1/take own 0/finish/take own 0",
        "context 0/consumer 1/asked 2 to 1/fired 0/fired 1/request 1 2 1/ok/outcome 2 timeout -1/",
    ),
    (
        "context/register 0 a/request 0 a 1/take own 0/ask 2 0 2/fail 2 4 no/finish/take own 0/\
         fail 4 -7 no/finish/take own 0",
        "context 0/consumer 1/asked 2 to 1/request 1 2 1/asked 4 to asker/refused 13 late 4/ok/\
         outcome 2 again 4 2/ok/ok/outcome 4 recipient_failure -7 \"no\"/",
    ),
    (
        "context/register 0 a/request 0 a 1/unregister 1/take own 0",
        "context 0/consumer 1/asked 2 to 1/ok/outcome 2 no_handlers -1/",
    ),
    (
        "context/register 0 a/register 0 a/publish a 1/publish b 1",
        "context 0/consumer 1/consumer 2/published 3 to 1 2/published 4 to none/",
    ),
    (
        "pass/context/@1 register 1 a/@01  context/register 3 a/@1 unregister 9/unregister 18446744073709551615",
        "pass 1/context 1/refused 4 not yours pass 0/context 3/refused 4 not yours pass 1/\
         refused 3 no consumer/refused 3 no consumer/",
    ),
    (
        "context/request +timeout:0 0 a 1/request +timeout:1000000000001 0 a 1/reply 7 1/ask 7 0 1",
        "context 0/refused 17 bad delay/refused 17 bad delay/refused 11 no message/refused 11 no message/",
    ),
    (
        "context/register 0 a/send a 1/take own 0/reply 2 1/fail 2 -0",
        "context 0/consumer 1/sent 2 to 1/deliver 1 2 1/refused 12 not request/refused 12 not request/",
    ),
    (
        "context/request 0 a 1/take own 0/finish",
        "context 0/asked 1 to none/outcome 1 no_handlers -1/ok/",
    ),
    (
        "context/register 0 a/request 0 a 1/take own 0/fail 2  -2147483648   'a'  b /finish/take own 0",
        "context 0/consumer 1/asked 2 to 1/request 1 2 1/ok/ok/\
         outcome 2 recipient_failure -2147483648 \"'a'  b \"/",
    ),
    (
        "register 18446744073709551615.4294967295 a",
        "refused 1 no context/",
    ),
    ("fail 1 2147483647", "refused 11 no message/"),
    (
        "context/register 0 a/advance 5/advance 3/request +timeout:1 0 a 1/advance 5/advance 6",
        "context 0/consumer 1/fired 0/fired 0/asked 4 to 1/fired 0/fired 1/",
    ),
    (
        "context/register 0 a/advance 4611686018427387904/request 0 a 1/advance 18446744073709551615",
        "context 0/consumer 1/fired 0/asked 3 to 1/fired 0/",
    ),
    (
        "context/register +limit:2 0 a/pause 1/send a 1/send a 2/send a 3/fetch 1 1/take own 0/finish/take own 0/\
         resume 1/take own 0",
        "context 0/consumer 1/ok/sent 3 to 1/sent 4 to 1/sent 5 lost 1/ok/deliver 1 3 1/ok/idle/ok/deliver 1 4 2/",
    ),
    (
        "context/register 0 a/send a 1/pause 1/send a 2/fetch 1 1/take own 0/finish/take own 0",
        "context 0/consumer 1/sent 2 to 1/ok/sent 4 to 1/ok/deliver 1 2 1/ok/idle/",
    ),
    (
        "context/register 0 a/codec w wrap k/rule out at:a add:h=v/send +codec:w a 1/take own 0/finish/rule in any stop/\
         send a 2/codec w copy",
        "context 0/consumer 1/codec 2/rule 3/sent 4 to 1/deliver 1 4 +\"h\"=\"v\" {\"k\":1}/ok/rule 7/\
         sent 8 stopped/refused 20 codec taken 2/",
    ),
    (
        "context/register +limit:1 0 a/pause 1/send a 1/request 0 a 2/take own 0",
        "context 0/consumer 1/ok/sent 3 to 1/asked 4 lost 1/outcome 4 no_handlers -1/",
    ),
    (
        "context/rule out any stop/request 0 a 1/take own 0",
        "context 0/rule 1/asked 2 stopped/outcome 2 no_handlers -1/",
    ),
    (
        "context/register +limit:0 0 a/register +limit:100001 0 a/register +limit:100000 0 a/fetch 3 0/fetch 9 1/pause 9/\
         resume 9",
        "context 0/refused 16 bad count/refused 16 bad count/consumer 3/refused 16 bad count/refused 3 no consumer/\
         refused 3 no consumer/refused 3 no consumer/",
    ),
    (
        "context/register 0 a/codec k keep a c/codec d drop a c/codec c copy/send +codec:k a {\"b\":1,\"a\":2}/\
         send +codec:d a {\"b\":1,\"a\":2}/send +codec:c a [ 1 ,true ]/take own 0/finish/take own 0/finish/take own 0",
        "context 0/consumer 1/codec 2/codec 3/codec 4/sent 5 to 1/sent 6 to 1/sent 7 to 1/deliver 1 5 {\"a\":2}/ok/\
         deliver 1 6 {\"b\":1}/ok/deliver 1 7 [1,true]/",
    ),
    (
        "uncodec w/codec w keep/uncodec w/send +codec:w a 1/unrule 9/rule in has:h add:=/unrule 5/unrule 5",
        "refused 19 no codec/codec 1/ok/refused 19 no codec/refused 21 no rule/rule 5/ok/refused 21 no rule/",
    ),
    (
        "context/register 0 a/rule in has:a add:c=d=e/send +h:a= +h:=b a null/send +h:b:c=\" a -5/take own 0/finish/\
         take own 0",
        "context 0/consumer 1/rule 2/sent 3 to 1/sent 4 to 1/deliver 1 3 +\"a\"=\"\" +\"\"=\"b\" +\"c\"=\"d=e\" null/ok/\
         deliver 1 4 +\"b:c\"=\"\\\"\" -5/",
    ),
    (
        "context/register 0 a/request +timeout:5 +h:a=1 0 a {\"x\":[\"\\u00e9\"]}/take own 0/reply +h:b=2 +h:b=3 2 \"y\"/\
         finish/take own 0",
        "context 0/consumer 1/asked 2 to 1/request 1 2 +\"a\"=\"1\" {\"x\":[\"é\"]}/ok/ok/\
         outcome 2 ok +\"b\"=\"2\" +\"b\"=\"3\" \"y\"/",
    ),
    (
        "context/register 0 a/request 0 a 1/take own 0/ask +h:q=r +timeout:9 2 0 [[]]/finish/take own 0",
        "context 0/consumer 1/asked 2 to 1/request 1 2 1/asked 4 to asker/ok/outcome 2 again 4 +\"q\"=\"r\" [[]]/",
    ),
    (
        "register 0 +limit:1/register 0 +a/register 0 é/send é\t\"\u{7f} 1/uncodec +codec:w",
        "refused 1 no context/refused 1 no context/refused 1 no context/sent 3 to none/refused 19 no codec/",
    ),
    (
        "publish +codec: a 1/publish +h:a=b a 1/reply +codec:c +h:a=b 0 1/fail 1 1 \"é\\",
        "refused 19 no codec/published 1 to none/refused 11 no message/refused 11 no message/",
    ),
    (
        "send a  \"x\\n\" /send a 9223372036854775807/send a\u{20}\t\t1\t/send a -9223372036854775808",
        "sent 0 to none/sent 1 to none/sent 2 to none/sent 3 to none/",
    ),
    (
        "pool p 1/deploy +worker +pool:p silent w 2/pass/take named 0/@1 take named 0/finish/@1 take named 0/\
         pool p 2/deploy +worker +pool:q silent w 1/take named 9",
        "pool 0/deployment 1/pass 1/start 1/idle/ok/start 1.1/refused 31 pool taken 0/refused 32 no pool/\
         refused 8 no lane/",
    ),
    (
        "pool a 0/pool a 21/pool a 20/pool a 21/pool a 1/pool b 1/pool c 1/pool d 1/pool e 1/pool f 1/pool g 1/\
         pool h 1/pool i 1/pool a 1/deploy +pool:h silent s 1",
        "refused 16 bad count/refused 16 bad count/pool 2/refused 16 bad count/refused 31 pool taken 2/pool 5/\
         pool 6/pool 7/pool 8/pool 9/pool 10/pool 11/refused 16 bad count/refused 31 pool taken 2/deployment 14/",
    ),
    (
        "deploy +worker silent w 2/take loop 0/pass/take pool/@1 take pool/finish/@1 finish",
        "deployment 0/idle/pass 1/start 0/start 0.1/ok/ok/",
    ),
    (
        "loops 0/loops 17/loops 1/deploy silent s 2/take loop 1/take loop 0/pass/@1 take loop 0/finish/\
         @1 take loop 0",
        "refused 16 bad count/refused 16 bad count/ok/deployment 3/idle/start 3/pass 1/refused 7 lane held 0/ok/\
         start 3.1/",
    ),
    (
        "loops 16/deploy silent s 17/take loop 15/finish/take loop 0/finish/take loop 0/finish/take loop 1",
        "ok/deployment 1/start 1.15/ok/start 1/ok/start 1.16/ok/start 1.1/",
    ),
    (
        "deploy silent s 0/deploy silent s 65/deploy silent s 1000/deploy silent s 64/take loop 1/finish/\
         take loop 1/take own 3",
        "refused 16 bad count/refused 16 bad count/refused 16 bad count/deployment 3/start 3.1/ok/start 3.3/\
         refused 6 holding 6/",
    ),
    (
        "deploy +tell:5 silent s 1/deploy +tell:0 silent s 1/pass/context/@1 context/deploy +tell:3 silent s 1/\
         @1 deploy +tell:4 silent s 0/deploy +tell:4 silent s 1/@1 deploy +tell:3 +pool:p silent s 1",
        "refused 1 no context/refused 1 no context/pass 1/context 3/context 4/deployment 5/refused 16 bad count/\
         refused 4 not yours pass 1/refused 32 no pool/",
    ),
    (
        "deploy silent s 1/deploy +tell:0 silent t 1/take loop 0/deploy +tell:0 silent t 1/started fail 7/\
         deploy +tell:0 silent t 1/deploy silent t 1/finish/take loop 0/deploy +tell:0 silent t 1/take loop 1",
        "deployment 0/refused 4 not yours context 0/start 0/deployment 3/ok/refused 2 context closed 4/\
         refused 2 context closed 4/ok/idle/refused 4 not yours context 0/start 3/",
    ),
    (
        "undeploy 0/deploy silent s 1/take loop 0/finish/undeploy +tell:9 1/undeploy 1/undeploy 1/take loop 0/\
         finish/undeploy 1/take loop 0",
        "refused 14 no deployment/deployment 1/start 1/ok/refused 1 no context/ok/refused 15 stopping 5/stop 1/\
         ok/refused 14 no deployment/idle/",
    ),
    (
        "deploy silent s 1/undeploy 0/take loop 0/finish/take loop 0/finish/close",
        "deployment 0/ok/start 0/ok/stop 0/ok/ok/",
    ),
    (
        "context/deploy silent s 1/take loop 0/finish/undeploy +tell:0 1/take own 0/take loop 0/finish fail 3/\
         take own 0/finish/undeploy +tell:0 1",
        "context 0/deployment 1/start 1/ok/ok/idle/stop 1/ok/undeployend 1/ok/refused 14 no deployment/",
    ),
    (
        "deploy silent p 1/take loop 0/deploy silent c 1/finish/take loop 1/finish/undeploy 2/undeploy 2/\
         take loop 1/finish/undeploy 2/take loop 0/undeploy 0/take loop 0/finish/close",
        "deployment 0/start 0/deployment 2/ok/start 2/ok/ok/refused 15 stopping 6/stop 2/ok/\
         refused 14 no deployment/idle/ok/stop 0/ok/ok/",
    ),
    (
        "deploy silent p 1/take loop 0/deploy silent c 1/finish/take loop 1/finish/undeploy 0/take loop 0/\
         take loop 1/undeploy 2/finish/take loop 0/deploy silent d 1/finish/undeploy 2/undeploy 0/close",
        "deployment 0/start 0/deployment 2/ok/start 2/ok/ok/idle/stop 2/refused 15 stopping 6/ok/stop 0/\
         refused 15 stopping 6/ok/refused 14 no deployment/refused 14 no deployment/ok/",
    ),
    (
        "started/stopped/context/register 2 a/send a 1/take own 2/started/stopped/finish",
        "refused 5 not holding/refused 5 not holding/context 2/consumer 3/sent 4 to 3/deliver 3 4 1/\
         refused 14 no deployment/refused 14 no deployment/ok/",
    ),
    (
        "context/deploy +tell:0 silent s 1/take loop 0/stopped/pass/@1 started/started/started/started fail 3/\
         finish fail 4/take own 0/finish/undeploy 1/take loop 0/started/stopped/stopped/started/finish/\
         take loop 0",
        "context 0/deployment 1/start 1/refused 29 not pending/pass 1/refused 5 not holding/ok/\
         refused 29 not pending/refused 29 not pending/ok/deployend 1 ok/ok/ok/stop 1/refused 29 not pending/ok/\
         refused 2 context closed 15/refused 2 context closed 15/ok/idle/",
    ),
    (
        "context/deploy +tell:0 silent s 1/take loop 0/started fail -5/take own 0/finish/take own 0/finish/\
         undeploy 1",
        "context 0/deployment 1/start 1/ok/refused 6 holding 2/ok/deployend 1 fail -5/ok/refused 14 no deployment/",
    ),
    (
        "context/deploy +tell:0 silent s 1/take loop 0/finish nomemory/take own 0/finish/\
         deploy +tell:0 silent s 1/take loop 1/started nomemory/finish value 1/take own 0",
        "context 0/deployment 1/start 1/ok/deployend 1 nomemory/ok/deployment 6/start 6/ok/ok/deployend 6 nomemory/",
    ),
    (
        "context/deploy +tell:0 silent s 1/take loop 0/register 1 a/finish later/take own 0/send a 1/take loop 0/\
         started/finish/take own 0",
        "context 0/deployment 1/start 1/consumer 3/ok/idle/sent 6 to 3/deliver 3 6 1/ok/ok/deployend 1 ok/",
    ),
    (
        "context/deploy +tell:0 silent s 1/take loop 0/finish later/undeploy 1/take loop 0/take own 0/close",
        "context 0/deployment 1/start 1/ok/ok/idle/idle/refused 27 still deployed 1/",
    ),
    (
        "context/deploy +tell:0 silent s 1/take loop 0/finish value -1/take own 0",
        "context 0/deployment 1/start 1/ok/deployend 1 ok/",
    ),
    (
        "context/deploy +tell:0 silent p 1/take loop 0/deploy silent c 1/finish fail 3/take own 0/take loop 1/\
         finish/take loop 1/finish/take own 0",
        "context 0/deployment 1/start 1/deployment 3/ok/idle/start 3/ok/stop 3/ok/deployend 1 fail 3/",
    ),
    (
        "deploy silent s 1/register 0 a/take own 0/take loop 0/register 0 a/finish/send a 1/undeploy 0/\
         take loop 0/finish/take loop 0/finish/send a 2/take loop 0",
        "deployment 0/refused 4 not yours context 0/refused 8 no lane/start 0/consumer 4/ok/sent 6 to 4/ok/\
         deliver 4 6 1/ok/stop 0/ok/sent 12 to none/idle/",
    ),
    (
        "deploy counter c 1/take loop 0/register 0 a/finish/context/request 4 a 1/take loop 0/reply 5 2/finish/\
         take own 4",
        "deployment 0/start 0/consumer 2/ok/context 4/asked 5 to 2/request 2 5 1/ok/ok/outcome 5 ok 2/",
    ),
    (
        "deploy silent s 1/deploy silent t 1/close/take loop 0/finish/undeploy 0/close/take loop 0/finish/close/\
         take loop 1/finish/undeploy 1/take loop 1/finish/close/close",
        "deployment 0/deployment 1/refused 27 still deployed 0/start 0/ok/ok/refused 27 still deployed 0/stop 0/\
         ok/refused 27 still deployed 1/start 1/ok/ok/stop 1/ok/ok/refused 28 host closed 15/",
    ),
    (
        "context/register 0 a/send a 1/take own 0/close/reply 2 1/finish/finish/pass/@1 take loop 16/loops 1/\
         pool p 1/deploy silent s 1/undeploy 0/started/send a 1",
        "context 0/consumer 1/sent 2 to 1/deliver 1 2 1/ok/refused 28 host closed 4/ok/refused 5 not holding/\
         pass 1/stopped/refused 28 host closed 4/refused 28 host closed 4/refused 28 host closed 4/\
         refused 28 host closed 4/refused 28 host closed 4/refused 28 host closed 4/",
    ),
];

/// Bad scripts, with the first line in no form, and why. A `/` stands for a newline.
static BAD: [(&str, u64, LineWhy); 94] = [
    ("context/foo", 2, LineWhy::Word),
    ("context/pass 1", 2, LineWhy::Form),
    ("context\r//# fine/context 1/foo", 4, LineWhy::Form),
    ("   ", 1, LineWhy::Word),
    ("\r", 1, LineWhy::Word),
    (" # no comment", 1, LineWhy::Word),
    ("con\0text", 1, LineWhy::Word),
    ("finish\tall", 1, LineWhy::Word),
    ("@1 pass", 1, LineWhy::Pass),
    ("pass/@1 pass/@2 pass/@4 pass", 4, LineWhy::Pass),
    ("@ pass", 1, LineWhy::Pass),
    ("@x pass", 1, LineWhy::Pass),
    ("@-0 pass", 1, LineWhy::Pass),
    ("@18446744073709551616 pass", 1, LineWhy::Pass),
    ("@000000000000000000000 pass", 1, LineWhy::Pass),
    ("@1", 1, LineWhy::Pass),
    ("@0", 1, LineWhy::Word),
    ("@0 @0 pass", 1, LineWhy::Word),
    ("@0 loops", 1, LineWhy::Form),
    ("close 1", 1, LineWhy::Form),
    ("register +x +limit:", 1, LineWhy::Form),
    ("register +limit 0 a", 1, LineWhy::Form),
    ("register +limit:x 0 a", 1, LineWhy::Form),
    ("register +limit:4294967296 0 a", 1, LineWhy::Form),
    ("register +limit:1 +limit:1 0 a", 1, LineWhy::Form),
    ("register +timeout:1 0 a", 1, LineWhy::Form),
    ("send +h a 1", 1, LineWhy::Form),
    ("send +h:a:b a 1", 1, LineWhy::Form),
    ("send +x a 1", 1, LineWhy::Form),
    ("send +timeout:1 a 1", 1, LineWhy::Form),
    ("send +h:a=b +a 1", 1, LineWhy::Form),
    ("send +codec:c +h:a=b +codec:c a 1", 1, LineWhy::Form),
    ("request +timeout:1 +once 0 a 1", 1, LineWhy::Unbuilt),
    ("request +once:1 0 a 1", 1, LineWhy::Form),
    ("request +timeout:1 +timeout:1 0 a 1", 1, LineWhy::Form),
    ("request +timeout: 0 a 1", 1, LineWhy::Form),
    ("request +timeout:x 0 a 1", 1, LineWhy::Form),
    ("reply +once 0 1", 1, LineWhy::Form),
    ("reply +timeout:1 0 1", 1, LineWhy::Form),
    ("ask +h: 0 0 1", 1, LineWhy::Form),
    ("fail +h:a=b 0 1", 1, LineWhy::Form),
    ("pause", 1, LineWhy::Form),
    ("pause 1 1", 1, LineWhy::Form),
    ("resume x", 1, LineWhy::Form),
    ("fetch 1", 1, LineWhy::Form),
    ("fetch 1 4294967296", 1, LineWhy::Form),
    ("fetch 1 -1", 1, LineWhy::Form),
    ("codec c", 1, LineWhy::Form),
    ("codec c keeps a", 1, LineWhy::Form),
    ("codec c copy a", 1, LineWhy::Form),
    ("codec c wrap", 1, LineWhy::Form),
    ("codec c wrap a b", 1, LineWhy::Form),
    ("uncodec", 1, LineWhy::Form),
    ("uncodec a b", 1, LineWhy::Form),
    ("rule up any stop", 1, LineWhy::Form),
    ("rule in all stop", 1, LineWhy::Form),
    ("rule in any: stop", 1, LineWhy::Form),
    ("rule in at stop", 1, LineWhy::Form),
    ("rule out at:a go", 1, LineWhy::Form),
    ("rule out has:a add:b", 1, LineWhy::Form),
    ("rule in any stop 1", 1, LineWhy::Form),
    ("unrule +1", 1, LineWhy::Form),
    ("take named e", 1, LineWhy::Form),
    ("take +x loop 0", 1, LineWhy::Form),
    ("take own", 1, LineWhy::Form),
    ("take any 0", 1, LineWhy::Form),
    ("finish all", 1, LineWhy::Form),
    ("register 18446744073709551616 a", 1, LineWhy::Form),
    ("register 000000000000000000001 a", 1, LineWhy::Form),
    ("register 0.4294967296 a", 1, LineWhy::Form),
    ("register 0. a", 1, LineWhy::Form),
    ("register 0.0.0 a", 1, LineWhy::Form),
    ("register 0", 1, LineWhy::Form),
    ("register -0 a", 1, LineWhy::Form),
    ("send a", 1, LineWhy::Form),
    ("send a 01", 1, LineWhy::Form),
    ("send a -0", 1, LineWhy::Form),
    ("send a 1.5", 1, LineWhy::Form),
    ("send a 9223372036854775808", 1, LineWhy::Form),
    ("send a nul", 1, LineWhy::Form),
    ("send a [1", 1, LineWhy::Form),
    ("send a {1:2}", 1, LineWhy::Form),
    ("send a \"x", 1, LineWhy::Form),
    ("send a \"x\"y", 1, LineWhy::Form),
    ("send a \"x\u{1}\"", 1, LineWhy::Form),
    ("send a\t1", 1, LineWhy::Form),
    ("fail 1 2147483648 x", 1, LineWhy::Form),
    ("fail 1 -2147483649 x", 1, LineWhy::Form),
    ("deploy nobody a 1", 1, LineWhy::Form),
    ("context/deploy ticker a 1", 2, LineWhy::Unbuilt),
    ("deploy silent a 1001", 1, LineWhy::Form),
    ("work loop 0", 1, LineWhy::Unbuilt),
    ("deploy silent a 1/@1 take loop 0", 2, LineWhy::Pass),
    ("pool p", 1, LineWhy::Form),
];

/// The lines with a newline for each `/`.
fn lines_of(alloc: Global, text: &str) -> Result<Vec<u8>, AllocError> {
    let mut lines = text.as_bytes().to_vec(alloc)?;
    for b in lines.iter_mut() {
        if *b == b'/' {
            *b = b'\n';
        }
    }
    Ok(lines)
}

#[test]
fn good_scripts(rt: HostRuntime) -> Result<(), Fail> {
    let alloc = rt.alloc();
    for (input, output) in GOOD {
        let written = lines_of(alloc, output)?;
        let as_told = plays(alloc, lines_of(alloc, input)?, Status::Done, &written);
        assert!(rt; as_told, "{input}");
    }
    Ok(())
}

#[test]
fn bad_lines(rt: HostRuntime) -> Result<(), Fail> {
    let alloc = rt.alloc();
    for (input, line, why) in BAD {
        let as_told = plays(alloc, lines_of(alloc, input)?, bad(line, why), b"");
        assert!(rt; as_told, "{input}");
    }
    for input in [
        b"# \xff".as_slice(),
        b"context\xc3".as_slice(),
        b"foo\xff".as_slice(),
    ] {
        let as_told = plays(alloc, input.to_vec(alloc)?, bad(1, LineWhy::Utf8), b"");
        assert!(rt; as_told, "{input:?}");
    }
    Ok(())
}

/// A text, and behind it so many times another.
fn with_many(
    alloc: Global,
    front: &[u8],
    count: usize,
    more: &[u8],
) -> Result<Vec<u8>, AllocError> {
    let mut input = front.to_vec(alloc)?;
    for _ in 0..count {
        input.extend_from_slice(more)?;
    }
    Ok(input)
}

#[test]
fn addresses_have_1024_bytes_at_most(rt: HostRuntime) -> Result<(), Fail> {
    let alloc = rt.alloc();
    for (count, output) in [
        (1024, "context 0\nconsumer 1\n"),
        (1025, "context 0\nrefused 9 bad address\n"),
    ] {
        let input = with_many(alloc, b"context\nregister 0 ", count, b"a")?;
        let as_told = plays(alloc, input, Status::Done, output.as_bytes());
        assert!(rt; as_told, "{count}");
    }
    Ok(())
}

/// A line that sends so many arrays, one in another.
fn deep_body(alloc: Global, depth: usize) -> Result<Vec<u8>, AllocError> {
    let line = with_many(alloc, b"send a ", depth, b"[")?;
    with_many(alloc, &line, depth, b"]")
}

#[test]
fn bodies_are_100_deep_at_most(rt: HostRuntime) -> Result<(), Fail> {
    let alloc = rt.alloc();
    for (depth, status, output) in [
        (100, Status::Done, "sent 0 to none\n"),
        (101, bad(1, LineWhy::Form), ""),
    ] {
        let as_told = plays(alloc, deep_body(alloc, depth)?, status, output.as_bytes());
        assert!(rt; as_told, "{depth}");
    }
    Ok(())
}

/// A line that sends so many headers.
fn many_headers(alloc: Global, count: usize) -> Result<Vec<u8>, AllocError> {
    let mut line = with_many(alloc, b"send", count, b" +h:a=b")?;
    line.extend_from_slice(b" a 1")?;
    Ok(line)
}

#[test]
fn lines_have_1152_headers_at_most(rt: HostRuntime) -> Result<(), Fail> {
    let alloc = rt.alloc();
    for (count, status, output) in [
        (1024, Status::Done, "sent 0 to none\n"),
        (1152, Status::Done, "refused 10 too large 1024\n"),
        (1153, bad(1, LineWhy::Form), ""),
    ] {
        let as_told = plays(
            alloc,
            many_headers(alloc, count)?,
            status,
            output.as_bytes(),
        );
        assert!(rt; as_told, "{count}");
    }
    Ok(())
}

/// A request that is failed with a text of what follows.
static FAILING: &str = "context\nregister 0 a\nrequest 0 a 1\ntake own 0\nfail 2 1 ";

#[test]
fn failures_have_65536_bytes_at_most(rt: HostRuntime) -> Result<(), Fail> {
    let alloc = rt.alloc();
    for (count, output) in [
        (
            65_536,
            "context 0\nconsumer 1\nasked 2 to 1\nrequest 1 2 1\nok\n",
        ),
        (
            65_537,
            "context 0\nconsumer 1\nasked 2 to 1\nrequest 1 2 1\nrefused 10 too large 65536\n",
        ),
    ] {
        let input = with_many(alloc, FAILING.as_bytes(), count, b"x")?;
        let as_told = plays(alloc, input, Status::Done, output.as_bytes());
        assert!(rt; as_told, "{count}");
    }
    Ok(())
}

/// Whether two lines end so where this read and this write fail.
fn fails(
    alloc: Global,
    read: u64,
    write: u64,
    status: Status,
    output: &str,
) -> Result<bool, AllocError> {
    let source = MemSource::new(b"finish\nfinish\n".to_vec(alloc)?, vec![in alloc; read]?);
    let sink = MemSink::new(alloc, vec![in alloc; write]?);
    let words = [Text::constant("run")];
    Ok(ends(alloc, &words, source, sink, status, output.as_bytes()))
}

#[test]
fn faults(rt: HostRuntime) -> Result<(), Fail> {
    let alloc = rt.alloc();
    for (read, write, status, output) in [
        (0u64, 9u64, Status::ReadFault, ""),
        (1, 9, Status::ReadFault, ""),
        (9, 0, Status::WriteFault, ""),
        (9, 1, Status::WriteFault, "refused 5 not holding\n"),
    ] {
        let as_told = fails(alloc, read, write, status, output)?;
        assert!(rt; as_told, "{read} {write}");
    }
    Ok(())
}

#[test]
fn no_words(rt: HostRuntime) {
    let alloc = rt.alloc();
    let source = MemSource::new(Vec::new(alloc), Vec::new(alloc));
    let sink = MemSink::new(alloc, Vec::new(alloc));
    assert!(rt; ends(alloc, &[], source, sink, Status::Usage, b""));
}

/// Whether a status has this number, and says this.
fn says(alloc: Global, status: Status, code: u8, line: &str) -> bool {
    let mut got = Vec::new(alloc);
    let made = status.text(alloc, &mut got);
    made.is_ok() && got.as_slice() == line.as_bytes() && status.code() == code
}

#[test]
fn fault_lines(rt: HostRuntime) {
    for (status, code, line) in [
        (Status::Done, 0, ""),
        (Status::Usage, 2, "vxscript: usage\n"),
        (bad(2, LineWhy::Utf8), 3, "vxscript: bad line 2: utf8\n"),
        (bad(2, LineWhy::Pass), 3, "vxscript: bad line 2: pass\n"),
        (bad(2, LineWhy::Word), 3, "vxscript: bad line 2: word\n"),
        (
            bad(2, LineWhy::Unbuilt),
            3,
            "vxscript: bad line 2: unbuilt\n",
        ),
        (bad(2, LineWhy::Form), 3, "vxscript: bad line 2: form\n"),
        (Status::ReadFault, 4, "vxscript: read fault\n"),
        (Status::WriteFault, 5, "vxscript: write fault\n"),
        (Status::TooLong(1), 6, "vxscript: too long\n"),
        (Status::NoMemory, 9, "vxscript: no memory\n"),
    ] {
        assert!(rt; says(rt.alloc(), status, code, line), "{line}");
    }
}
