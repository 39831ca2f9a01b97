//! Worked examples of the machine: short lists of calls, and what it replies to each.
#![tactic(auto)]

ghost use Rattle.std.specs.Prelude.{◌≡◌, true, nat_lt, codes, List, [], length, None};
ghost use Rattle.vx_data.specs.declared.ids.PassNo.{PassNo};
ghost use Rattle.vx_data.specs.BodyText.{body_text};
ghost use Rattle.vx_data.specs.Tree.{Tree};
ghost use Rattle.vx_call.specs.declared.call.Call.{Call};
ghost use Rattle.vx_call.specs.declared.call.Call.TheVariants as calls;
ghost use Rattle.vx_call.specs.declared.history.Traced.{Traced};
ghost use Rattle.vx_call.specs.declared.reply.Refusal.TheVariants as refusals;
ghost use Rattle.vx_call.specs.Machine.{answer};
ghost use Rattle.vx_call.specs.Refusals.{is_spent};
ghost use Rattle.vx_call.specs.Connections.{outs};
ghost use Rattle.vx_call.specs.Runs.{replies_of, replies_by, history_by};
ghost use Rattle.vx_call_examples.specs.Verticles.{parent_and_child, parent_and_child_replies, failed_start, failed_start_replies, periodic_timer, periodic_timer_replies, waiting_fire, waiting_fire_replies, closed_hub, closed_hub_replies, no_loop, no_loop_replies, handed_over, handed_over_replies, jobs_in_turn, jobs_in_turn_replies, free_jobs, free_jobs_replies, no_handler, no_handler_replies, one_worker, one_worker_replies, named_pool, named_pool_replies, failing_parent, failing_parent_replies, misfit_verticles, misfit_verticles_replies, timers_and_requests, timers_and_requests_replies};
ghost use Rattle.vx_call_examples.specs.Promises.{both, both_replies, shared_server, shared_server_replies, with_failures, with_failures_replies, of_composites, of_composites_replies, settled_before, settled_before_replies, closes_with_it, closes_with_it_replies, misfit_promises, misfit_promises_replies};
ghost use Rattle.vx_call_examples.specs.Joined.{joined, joined_replies};
ghost use Rattle.vx_call_examples.specs.Forms.{pass_0, context, message, pass, conn, plain, refused};
ghost use Rattle.vx_call_examples.specs.Examples.{one_message, one_message_replies, nobody, nobody_replies, two_handlers, two_handlers_replies, two_takes, two_takes_replies, no_task, no_task_replies, misfits, misfits_replies, handler_leaves, handler_leaves_replies, all_leave, all_leave_replies, two_replies, two_replies_replies, time_up, time_up_replies, reply_asks, reply_asks_replies, handler_lost, handler_lost_replies, paused_first, paused_first_replies, paused_late, paused_late_replies, codecs_and_rules, codecs_and_rules_replies, asks_too_many, asks_too_many_replies, asks_in_vain, asks_in_vain_replies};
ghost use Rattle.vx_call_examples.specs.Connections.{pings, pings_replies, too_long, too_long_replies, echo, echo_replies, asked, asked_replies, stopped, stopped_replies, both_ways, both_ways_replies, late_opener, late_opener_replies};
ghost use Rattle.vx_call_examples.specs.Refused.{consumers_refused, consumers_refused_replies, messages_refused, messages_refused_replies, requests_refused, requests_refused_replies, replies_refused, replies_refused_replies, answering, failures_refused, failures_refused_replies, asking_again_refused, asking_again_refused_replies, timers_refused, timers_refused_replies, codecs_and_rules_refused, codecs_and_rules_refused_replies, deployments_refused, deployments_refused_replies, lanes_refused, lanes_refused_replies, connections_refused, connections_refused_replies, all_codecs, one_codec_more, one_codec_more_replies, all_rules, one_rule_more, one_rule_more_replies, all_pools, one_pool_more, one_pool_more_replies};
ghost use Rattle.vx_call_examples.specs.Crowds.{crowded, one_connection, one_more, one_more_replies, frames_out, two_asked, two_time_out, two_time_out_replies, one_permit, unheard, unheard_replies};

/// The machine's replies to calls, computed from its definitions alone.
pub fn worked_examples()
    ensures none { replies_of [] pass_0 [] ≡ [] }
    ensures one_message { replies_of [] pass_0 one_message ≡ one_message_replies }
    ensures nobody { replies_of [] pass_0 nobody ≡ nobody_replies }
    ensures two_handlers { replies_of [] pass_0 two_handlers ≡ two_handlers_replies }
    ensures two_takes { replies_of [] pass_0 two_takes ≡ two_takes_replies }
    ensures no_task { replies_of [] pass_0 no_task ≡ no_task_replies }
    ensures misfits { replies_of [] pass_0 misfits ≡ misfits_replies }
    ensures handler_leaves { replies_of [] pass_0 handler_leaves ≡ handler_leaves_replies }
    ensures all_leave { replies_of [] pass_0 all_leave ≡ all_leave_replies }
    ensures two_replies { replies_of [] pass_0 two_replies ≡ two_replies_replies }
    ensures time_up { replies_of [] pass_0 time_up ≡ time_up_replies }
    ensures reply_asks { replies_of [] pass_0 reply_asks ≡ reply_asks_replies }
    ensures handler_lost { replies_of [] pass_0 handler_lost ≡ handler_lost_replies }
    ensures paused_first { replies_of [] pass_0 paused_first ≡ paused_first_replies }
    ensures paused_late { replies_of [] pass_0 paused_late ≡ paused_late_replies }
    ensures codecs_and_rules { replies_of [] pass_0 codecs_and_rules ≡ codecs_and_rules_replies }
    ensures asks_too_many { replies_of [] pass_0 asks_too_many ≡ asks_too_many_replies }
    ensures asks_in_vain { replies_of [] pass_0 asks_in_vain ≡ asks_in_vain_replies }
{}

/// The same of verticles, lanes, timers and code that is handed over.
pub fn life_examples()
    ensures parent_and_child { replies_of [] pass_0 parent_and_child ≡ parent_and_child_replies }
    ensures failed_start { replies_of [] pass_0 failed_start ≡ failed_start_replies }
    ensures periodic_timer { replies_of [] pass_0 periodic_timer ≡ periodic_timer_replies }
    ensures waiting_fire { replies_of [] pass_0 waiting_fire ≡ waiting_fire_replies }
    ensures closed_hub { replies_of [] pass_0 closed_hub ≡ closed_hub_replies }
    ensures no_loop { replies_of [] pass_0 no_loop ≡ no_loop_replies }
    ensures handed_over { replies_of [] pass_0 handed_over ≡ handed_over_replies }
    ensures jobs_in_turn { replies_by [] jobs_in_turn ≡ jobs_in_turn_replies }
    ensures free_jobs { replies_by [] free_jobs ≡ free_jobs_replies }
    ensures no_handler { replies_of [] pass_0 no_handler ≡ no_handler_replies }
    ensures one_worker { replies_by [] one_worker ≡ one_worker_replies }
    ensures named_pool { replies_by [] named_pool ≡ named_pool_replies }
    ensures failing_parent { replies_by [] failing_parent ≡ failing_parent_replies }
    ensures misfit_verticles { replies_by [] misfit_verticles ≡ misfit_verticles_replies }
    ensures timers_and_requests { replies_of [] pass_0 timers_and_requests ≡ timers_and_requests_replies }
{}

/// The same of connections of the bridge, and of one on which as many frames wait as may.
pub fn bridge_examples()
    ensures pings { replies_by [] pings ≡ pings_replies }
    ensures too_long { replies_by [] too_long ≡ too_long_replies }
    ensures echo { replies_by [] echo ≡ echo_replies }
    ensures asked { replies_by [] asked ≡ asked_replies }
    ensures stopped { replies_by [] stopped ≡ stopped_replies }
    ensures both_ways { replies_by [] both_ways ≡ both_ways_replies }
    ensures late_opener { replies_by [] late_opener ≡ late_opener_replies }
    ensures one_more { replies_by (crowded one_connection) one_more ≡ one_more_replies }
    ensures not_added { length (outs (history_by (crowded one_connection) one_more) (conn 0)) ≡ frames_out }
    ensures two_time_out { replies_by (crowded two_asked) two_time_out ≡ two_time_out_replies }
    ensures unheard { replies_by (crowded one_permit) unheard ≡ unheard_replies }
{}

/// The same of promises, composites and shared servers, and of these together with a connection of the bridge.
pub fn promise_examples()
    ensures both { replies_of [] pass_0 both ≡ both_replies }
    ensures shared_server { replies_of [] pass_0 shared_server ≡ shared_server_replies }
    ensures with_failures { replies_of [] pass_0 with_failures ≡ with_failures_replies }
    ensures of_composites { replies_of [] pass_0 of_composites ≡ of_composites_replies }
    ensures settled_before { replies_of [] pass_0 settled_before ≡ settled_before_replies }
    ensures closes_with_it { replies_by [] closes_with_it ≡ closes_with_it_replies }
    ensures misfit_promises { replies_by [] misfit_promises ≡ misfit_promises_replies }
    ensures joined { replies_by [] joined ≡ joined_replies }
{}

/// Why calls are refused: for each call all causes, in the order in which they are tested.
pub fn refusal_examples()
    ensures consumers_refused { replies_by [] consumers_refused ≡ consumers_refused_replies }
    ensures messages_refused { replies_by [] messages_refused ≡ messages_refused_replies }
    ensures requests_refused { replies_by [] requests_refused ≡ requests_refused_replies }
    ensures replies_refused { replies_by [] replies_refused ≡ replies_refused_replies }
    ensures failures_refused { replies_by [] failures_refused ≡ failures_refused_replies }
    ensures asking_again_refused { replies_by [] asking_again_refused ≡ asking_again_refused_replies }
    ensures timers_refused { replies_by [] timers_refused ≡ timers_refused_replies }
    ensures codecs_and_rules_refused { replies_by [] codecs_and_rules_refused ≡ codecs_and_rules_refused_replies }
    ensures deployments_refused { replies_by [] deployments_refused ≡ deployments_refused_replies }
    ensures lanes_refused { replies_by [] lanes_refused ≡ lanes_refused_replies }
    ensures connections_refused { replies_by [] connections_refused ≡ connections_refused_replies }
    ensures large_body { (body : Tree) → nat_lt 1048576 (length (body_text body)) ≡ true → answer [] pass_0 (calls.Send (codes "a") body plain) ≡ refused (refusals.TooLarge 1048576) }
    ensures large_published { (body : Tree) → nat_lt 1048576 (length (body_text body)) ≡ true → answer [] pass_0 (calls.Publish (codes "a") body plain) ≡ refused (refusals.TooLarge 1048576) }
    ensures large_asked { (body : Tree) → nat_lt 1048576 (length (body_text body)) ≡ true → answer (history_by [] answering) pass_0 (calls.Request (context 0) (codes "a") body plain 0 None) ≡ refused (refusals.TooLarge 1048576) }
    ensures large_reply { (body : Tree) → nat_lt 1048576 (length (body_text body)) ≡ true → answer (history_by [] answering) (pass 1) (calls.Reply (message 5) body plain) ≡ refused (refusals.TooLarge 1048576) }
    ensures large_asking_again { (body : Tree) → nat_lt 1048576 (length (body_text body)) ≡ true → answer (history_by [] answering) (pass 1) (calls.ReplyRequest (message 5) (context 2) body plain 0) ≡ refused (refusals.TooLarge 1048576) }
    ensures spent { (history : List Traced) (pass : PassNo) (call : Call) → is_spent history ≡ true → answer history pass call ≡ refused refusals.Spent }
    ensures one_codec_more { replies_by all_codecs one_codec_more ≡ one_codec_more_replies }
    ensures one_rule_more { replies_by all_rules one_rule_more ≡ one_rule_more_replies }
    ensures one_pool_more { replies_by all_pools one_pool_more ≡ one_pool_more_replies }
{}
