//! Formats of Envoy.

use crate::telling::{check_many, check_rows};
use lf_words::Front;
use std::test::Fail;

#[test]
fn first_faults_of_envoy(rt: HostRuntime) -> Result<(), Fail> {
    check_rows(
        &rt,
        rt.alloc(),
        Front::Envoy,
        "%req(A)% => UnknownName at 0
a%REQUEST% => UnknownName at 1
%(A)% => UnknownName at 0
a% => UnknownName at 1
%START_TIME(%s)% => BadName at 0
%REQ% => BadName at 0
%REQ()% => BadName at 0
%PROTOCOL(A)% => BadName at 0
%REQ(A?B?C)% => BadName at 0
%RESP(?B)% => BadName at 0
ab%TRAILER(A?)% => BadName at 2
%DYNAMIC_METADATA% => BadName at 0
%REQ(A):% => BadLength at 0
%REQ(A):0% => BadLength at 0
%REQ(A):07% => BadLength at 0
%REQ(A):65536% => BadLength at 0
%REQ(A):70000% => BadLength at 0
%FILTER_STATE(a):18446744073709551617% => BadLength at 0
x%PROTOCOL:3% => BadLength at 1
%REQ(A => Unclosed at 0
ab%PROTOCOL( => Unclosed at 2
%PROTOCOL => Unclosed at 0
%REQ(A):7 => Unclosed at 0
%REQ(A)x% => Unclosed at 0
%REQ(A):7x% => Unclosed at 0
 => EmptyFormat at 0",
    )
}

#[test]
fn first_of_two_faults_of_envoy(rt: HostRuntime) -> Result<(), Fail> {
    check_rows(
        &rt,
        rt.alloc(),
        Front::Envoy,
        "%REQ2(A => UnknownName at 0
%Z:0 => UnknownName at 0
%PROTOCOL(:0 => Unclosed at 0
%REQ(:0 => Unclosed at 0
%REQ:3% => BadName at 0
%REQ():0% => BadName at 0
%REQ() => BadName at 0
%HOSTNAME(A):0 => BadName at 0
%REQ(A):0 => BadLength at 0
%HOSTNAME:1 => BadLength at 0
a%REQ%%Z% => BadName at 1
%Z%%REQ% => UnknownName at 0",
    )
}

#[test]
fn line_feeds_of_envoy(rt: HostRuntime) -> Result<(), Fail> {
    check_rows(
        &rt,
        rt.alloc(),
        Front::Envoy,
        "a¶ => <a>
¶ => EmptyFormat at 0
¶¶ => LineBreak at 0
a¶¶ => LineBreak at 1
a¶b => LineBreak at 1
%REQ(A¶B)% => BadName at 0
%REQ(¶ => Unclosed at 0
%REQ(¶)%¶ => BadName at 0
%Z%¶¶ => UnknownName at 0",
    )
}

#[test]
fn commands_of_envoy(rt: HostRuntime) -> Result<(), Fail> {
    check_rows(
        &rt,
        rt.alloc(),
        Front::Envoy,
        "%REQ(A)% => [%REQ(A)% header 0.. Raw Dash]
%REQ(:PATH)% => [%REQ(:PATH)% visible 0.. Raw Dash]
%RESP(A?:B)% => [%RESP(A?:B)% visible 0.. Raw Dash]
%TRAILER(:A?B)% => [%TRAILER(:A?B)% header 0.. Raw Dash]
%REQ(a%b):65535% => [%REQ(a%b):65535% header 0..65535 Raw Dash]
%REQ(:A):1% => [%REQ(:A):1% visible 0..1 Raw Dash]
%DYNAMIC_METADATA(:a?b?)% => [%DYNAMIC_METADATA(:a?b?)% header 0.. Raw Dash]
%FILTER_STATE(é(a):20% => [%FILTER_STATE(é(a):20% header 0..20 Raw Dash]
%PROTOCOL% => [%PROTOCOL% visible 1.. Raw Dash]
%RESPONSE_FLAGS% => [%RESPONSE_FLAGS% visible 1.. Raw Dash]
%RESPONSE_CODE_DETAILS% => [%RESPONSE_CODE_DETAILS% visible 1.. Raw Dash]
%UPSTREAM_HOST% => [%UPSTREAM_HOST% visible 1.. Raw Dash]
%UPSTREAM_CLUSTER% => [%UPSTREAM_CLUSTER% visible 1.. Raw Dash]
%UPSTREAM_LOCAL_ADDRESS% => [%UPSTREAM_LOCAL_ADDRESS% visible 1.. Raw Dash]
%DOWNSTREAM_LOCAL_ADDRESS% => [%DOWNSTREAM_LOCAL_ADDRESS% visible 1.. Raw Dash]
%DOWNSTREAM_REMOTE_ADDRESS% => [%DOWNSTREAM_REMOTE_ADDRESS% visible 1.. Raw Dash]
%DOWNSTREAM_REMOTE_ADDRESS_WITHOUT_PORT% => [%DOWNSTREAM_REMOTE_ADDRESS_WITHOUT_PORT% visible 1.. Raw Dash]
%REQUESTED_SERVER_NAME% => [%REQUESTED_SERVER_NAME% visible 1.. Raw Dash]
%ROUTE_NAME% => [%ROUTE_NAME% visible 1.. Raw Dash]
%HOSTNAME% => [%HOSTNAME% visible 1.. Raw Dash]
%UPSTREAM_TRANSPORT_FAILURE_REASON% => [%UPSTREAM_TRANSPORT_FAILURE_REASON% header 1.. Raw Dash]
%RESPONSE_CODE% => [%RESPONSE_CODE% 0..999 Raw Dash]
%BYTES_RECEIVED% => [%BYTES_RECEIVED% 0..9223372036854775807 Raw Dash]
%BYTES_SENT% => [%BYTES_SENT% 0..9223372036854775807 Raw Dash]
%DURATION% => [%DURATION% 0..9223372036854775807 Raw Dash]
%REQUEST_DURATION% => [%REQUEST_DURATION% 0..9223372036854775807 Raw Dash]
%RESPONSE_DURATION% => [%RESPONSE_DURATION% 0..9223372036854775807 Raw Dash]
%RESPONSE_TX_DURATION% => [%RESPONSE_TX_DURATION% 0..9223372036854775807 Raw Dash]
%CONNECTION_ID% => [%CONNECTION_ID% 0..9223372036854775807 Raw Dash]
%START_TIME% => [%START_TIME% millis Raw No]",
    )
}

#[test]
fn literals_of_envoy(rt: HostRuntime) -> Result<(), Fail> {
    check_rows(
        &rt,
        rt.alloc(),
        Front::Envoy,
        "a%%b => <a%b>
%%%%é\\n => <%%é\\n>
a%HOSTNAME%b%%%HOSTNAME% => <a>[%HOSTNAME% visible 1.. Raw Dash]<b%>[%HOSTNAME% visible 1.. Raw Dash]",
    )
}

#[test]
fn many_slots_of_envoy(rt: HostRuntime) -> Result<(), Fail> {
    check_many(
        &rt,
        rt.alloc(),
        Front::Envoy,
        "%HOSTNAME%",
        "129  => TooManySlots at 1280
129 %Z% => TooManySlots at 1280
128 a%REQ% => BadName at 1281
128 a%DURATION%¶¶ => TooManySlots at 1281",
    )
}
