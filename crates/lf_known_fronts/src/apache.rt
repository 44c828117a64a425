//! Formats of Apache.

use crate::telling::{check_many, check_rows};
use lf_words::Front;
use std::test::Fail;

#[test]
fn first_faults_of_apache(rt: HostRuntime) -> Result<(), Fail> {
    check_rows(
        &rt,
        rt.alloc(),
        Front::Apache,
        "%Z => UnknownName at 0
%h %200!h => UnknownName at 3
%{x}% => UnknownName at 0
%{c}t => BadName at 0
%{}i => BadName at 0
a%C => BadName at 1
%{x}H => BadName at 0
%{C}h => BadName at 0
%{a¶b}i => BadName at 0
% => Unclosed at 0
%{Referer => Unclosed at 0
ab%200< => Unclosed at 2
a%20h => BadFlags at 1
%!h => BadFlags at 0
%200,h => BadFlags at 0
%h\\nx => LineBreak at 2
a¶ => LineBreak at 1
 => EmptyFormat at 0
%20{A => BadFlags at 0
%200{A => Unclosed at 0
%{}Z => UnknownName at 0
%Z¶ => UnknownName at 0
¶%Z => LineBreak at 0
a%{}i%20h => BadName at 1",
    )
}

#[test]
fn directives_of_apache(rt: HostRuntime) -> Result<(), Fail> {
    check_rows(
        &rt,
        rt.alloc(),
        Front::Apache,
        "%h => [%h visible 1.. ApacheHex Dash]
%{c}a => [%{c}a visible 1.. ApacheHex Dash]
%H => [%H visible 1.. ApacheHex Dash]
%V => [%V visible 1.. ApacheHex Dash]
%u => [%u any 1.. ApacheHex Dash]
%r => [%r any 0.. ApacheHex Dash]
%{User-agent}i => [%{User-agent}i any 0.. ApacheHex Dash]
%{a\\}C => [%{a\\}C any 0.. ApacheHex Dash]
%q => [%q query any ApacheHex No]
%B => [%B 0..9223372036854775807 Raw No]
%b => [%b dash 0..9223372036854775807 Raw No]
%{canonical}p => [%{canonical}p 0..65535 Raw No]
%{tid}P => [%{tid}P 0..9223372036854775807 Raw No]
%{us}T => [%{us}T 0..9223372036854775807 Raw No]
%>s => [%>s 100..999 Raw Dash]
%t => [%t bracketed clf Raw No]
%304t => [%304t bracketed clf Raw Dash]
%X => [%X words X|+|- Raw No]
%200,304b => [%200,304b dash 0..9223372036854775807 Raw Dash]
%!200<{s}T => [%!200<{s}T 0..9223372036854775807 Raw Dash]",
    )
}

#[test]
fn literals_of_apache(rt: HostRuntime) -> Result<(), Fail> {
    check_rows(
        &rt,
        rt.alloc(),
        Front::Apache,
        "\\\"\\\\\\t%% => <\"\\\t%>
\\x\\ => <\\x\\>
\\%%é => <\\%é>
a%Xb%%\\c => <a>[%X words X|+|- Raw No]<b%\\c>",
    )
}

#[test]
fn many_slots_of_apache(rt: HostRuntime) -> Result<(), Fail> {
    check_many(
        &rt,
        rt.alloc(),
        Front::Apache,
        "%h",
        "129  => TooManySlots at 256
129 %Z => TooManySlots at 256
128 a%20h => BadFlags at 257
128 a%>s¶ => TooManySlots at 257",
    )
}
