// The rules of a divide.
use divide_rules::{DivideAsk, DivideRules, Rule, Verdict, judge};

fn ask(allocated: bool, read: u32, end: u32, executed: u32, copied: u32) -> DivideAsk {
    DivideAsk {
        allocated,
        read,
        end,
        executed,
        copied,
    }
}

fn plain_rules() -> DivideRules {
    DivideRules {
        least: 8,
        greatest: 2048,
        executed_percent: 50,
        copied_percent: 50,
        need_alloc: true,
    }
}

fn broken(rule: Rule, found: u32, bound: u32) -> Verdict {
    Verdict::Broken { rule, found, bound }
}

#[test]
fn each_rule_is_broken_just_past_its_bound(rt: HostRuntime) {
    let rules = plain_rules();
    let cases = [
        (ask(true, 100, 200, 50, 50), Verdict::Viable),
        (ask(false, 100, 200, 50, 50), broken(Rule::V1, 0, 1)),
        (ask(false, 0, 0, 0, 0), broken(Rule::V1, 0, 1)),
        (ask(true, 0, 0, 0, 0), broken(Rule::V2, 0, 50)),
        (ask(true, 49, 149, 49, 50), broken(Rule::V2, 49, 50)),
        (ask(true, 50, 150, 25, 50), Verdict::Viable),
        (ask(true, 200, 300, 100, 50), Verdict::Viable),
        (ask(true, 201, 301, 201, 50), broken(Rule::V2, 201, 200)),
        (ask(true, 100, 100, 50, 0), broken(Rule::V3, 100, 101)),
        (ask(true, 100, 7, 0, 0), broken(Rule::V3, 7, 101)),
        (ask(true, 100, 149, 50, 49), broken(Rule::V4, 49, 50)),
        (ask(true, 100, 150, 50, 25), Verdict::Viable),
        (ask(true, 100, 300, 50, 100), Verdict::Viable),
        (ask(true, 100, 301, 50, 101), broken(Rule::V4, 201, 200)),
        (ask(true, 100, 200, 49, 49), broken(Rule::V5, 49, 50)),
        (ask(true, 99, 199, 49, 50), broken(Rule::V5, 49, 50)),
        (ask(true, 100, 200, 50, 49), broken(Rule::V6, 49, 50)),
        (ask(true, 100, 201, 50, 50), broken(Rule::V6, 50, 51)),
    ];
    for (ask, verdict) in cases {
        assert_eq!(rt; judge(&ask, 100, &rules), verdict, "at {ask:?}");
    }
}
